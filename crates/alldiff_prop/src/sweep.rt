//! Whether the members leave the full intervals from a number on alone.
ghost use Rattle.std.specs.Prelude.{◌≡◌, ◌+◌, ◌<◌, ◌≤ℤ◌, ◌<ℤ◌, length, pos, IsTrue, IfSome, slice_index_or};
ghost use Rattle.fzn_model.specs.Limits.{IsValue};
ghost use Rattle.dom_store.specs.Strength.{free_count};
ghost use Rattle.alldiff_prop.specs.Spans.{AreOrdered, IsSwept, IsClearFrom};

use crate::taken::Taken;

/// How far a look along the spans came, which goes by where they end.
#[derive(Clone, Copy)]
pub struct Sweep {
    /// How many of them begin at the number or after it.
    pub count: usize,
    /// Where the last full interval ends, or the number before the first where there is none.
    pub last: i64,
    /// Whether one begins before the number, and ends at it or after it.
    pub crossed: bool,
}

/// Goes past a span that begins before the number; `None` where it ends in a full interval.
fn pass_outer(
    taken: &Taken,
    low: &i64,
    spans: &[(i64, i64)],
    at: usize,
    sweep: &Sweep,
) -> Option<Sweep>
    requires at { at < length spans.now }
    requires swept { IsSwept taken.now low.now spans.now at sweep.now }
    requires before { (slice_index_or spans.now at (pos 0, pos 0)).1 <ℤ low.now }
    ensures { IfSome result (λ s. IsSwept taken.now low.now spans.now (at + 1) s) }
{
    if spans[at].0 < *low {
        return Some(*sweep);
    }
    if spans[at].0 <= sweep.last {
        return None;
    }
    Some(Sweep {
        count: sweep.count,
        last: sweep.last,
        crossed: true,
    })
}

/// How many numbers from one to the end of a span aren't taken.
fn room(taken: &Taken, low: &i64, spans: &[(i64, i64)], at: usize) -> usize
    requires low { IsValue low.now }
    requires spans { AreOrdered spans.now }
    requires at { at < length spans.now }
    requires from { low.now ≤ℤ (slice_index_or spans.now at (pos 0, pos 0)).1 }
    ensures { result ≡ free_count taken.now low.now (slice_index_or spans.now at (pos 0, pos 0)).0 }
{
    taken.free_between(low, &spans[at].0)
}

/// Goes past a span that begins at the number or after it; `None` where it begins in a full interval that it isn't within,
/// or makes an interval full that another span crosses, or overfull.
fn pass_inner(
    taken: &Taken,
    low: &i64,
    spans: &[(i64, i64)],
    at: usize,
    sweep: &Sweep,
) -> Option<Sweep>
    requires low { IsValue low.now }
    requires spans { AreOrdered spans.now }
    requires at { at < length spans.now }
    requires swept { IsSwept taken.now low.now spans.now at sweep.now }
    requires from { low.now ≤ℤ (slice_index_or spans.now at (pos 0, pos 0)).1 }
    ensures { IfSome result (λ s. IsSwept taken.now low.now spans.now (at + 1) s) }
{
    if spans[at].1 <= sweep.last {
        return None;
    }
    let free = room(taken, low, spans, at);
    let count = sweep.count + 1;
    if count < free {
        return Some(Sweep {
            count,
            last: sweep.last,
            crossed: sweep.crossed,
        });
    }
    if free < count {
        return None;
    }
    if sweep.crossed {
        return None;
    }
    Some(Sweep {
        count,
        last: spans[at].0,
        crossed: false,
    })
}

/// Goes past a span.
fn pass_span(
    taken: &Taken,
    low: &i64,
    spans: &[(i64, i64)],
    at: usize,
    sweep: &Sweep,
) -> Option<Sweep>
    requires low { IsValue low.now }
    requires spans { AreOrdered spans.now }
    requires at { at < length spans.now }
    requires swept { IsSwept taken.now low.now spans.now at sweep.now }
    ensures { IfSome result (λ s. IsSwept taken.now low.now spans.now (at + 1) s) }
{
    if spans[at].1 < *low {
        pass_outer(taken, low, spans, at, sweep)
    } else {
        pass_inner(taken, low, spans, at, sweep)
    }
}

/// What is known before the first span.
fn first_sweep(taken: &Taken, low: &i64, spans: &[(i64, i64)]) -> Sweep
    requires { IsValue low.now }
    ensures { IsSwept taken.now low.now spans.now 0 result }
{
    Sweep {
        count: 0,
        last: *low - 1,
        crossed: false,
    }
}

/// Whether no interval from a number on is overfull, and no member has to leave a full one; where not, it isn't known.
pub fn is_clear(taken: &Taken, low: &i64, spans: &[(i64, i64)]) -> bool
    requires low { IsValue low.now }
    requires spans { AreOrdered spans.now }
    ensures { IsTrue result → IsClearFrom taken.now low.now spans.now }
{
    let mut sweep = first_sweep(taken, low, spans);
    for at in 0..spans.len() {
        match pass_span(taken, low, spans, at, &sweep) {
            Some(next) => sweep = next,
            None => return false,
        }
    }
    true
}
