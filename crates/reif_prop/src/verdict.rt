ghost use Rattle.std.specs.Prelude.{◌≡◌};
ghost use Rattle.reif_prop.specs.Judging.{opposite};

/// What the bounds show of a base.
#[derive(Clone, Copy)]
pub enum Verdict {
    /// That it holds.
    Shown,
    /// That it fails.
    Refuted,
    /// Neither.
    Unknown,
}

/// What the bounds show of the opposite of a base.
pub(crate) fn opposite(verdict: Verdict) -> Verdict
    ensures { result ≡ opposite verdict }
{
    match verdict {
        Verdict::Shown => Verdict::Refuted,
        Verdict::Refuted => Verdict::Shown,
        Verdict::Unknown => Verdict::Unknown,
    }
}
