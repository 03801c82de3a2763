ghost use Rattle.std.specs.Prelude.{◌≡◌, ℕ, List, OnOk, OnErr};
ghost use Rattle.std.specs.declared.option.Option.{Option};
ghost use Rattle.std.specs.Io.{ReadsAtMost};
ghost use Rattle.std.specs.Io.KnownBytes.{ReadConsumes};
ghost use Rattle.cs_base.specs.Causes.{HasCause};
ghost use Rattle.cs_base.specs.Chosen.{Chose, name_of};

use crate::failed::Failed;

/// Where bytes come from.
pub trait Source {
    /// The bytes that are left, where it tells them.
    ghost left: { Self → Option (List ℕ) };
    /// The name of the file that was chosen last, none for standard input, where it tells that.
    ghost chosen: { Self → Option (Option (List ℕ)) };
    /// How many calls failed; it stays at the greatest `u64`.
    ghost faults: { Self → ℕ };

    /// Chooses the file of that name, or standard input for `None`. A call that failed chose nothing.
    fn begin(&mut self, name: Option<&str>) -> Result<(), Failed>
        ensures bytes { left self.new ≡ left self.old }
        ensures chosen { OnOk result (Chose (chosen self.new) (name_of name.entry)) }
        ensures unchosen { OnErr result (chosen self.new ≡ chosen self.old) }
        ensures cause { HasCause (faults self.old) (faults self.new) result };

    /// Puts the next bytes at the front of `buf`, and answers how many. For a `buf` that isn't empty, 0 means that
    /// none are left. A call that failed took nothing.
    fn read(&mut self, buf: &mut [u8]) -> Result<usize, Failed>
        ensures bound { ReadsAtMost result buf.new }
        ensures bytes { ReadConsumes (left self.old) (left self.new) result buf.new }
        ensures chosen { chosen self.new ≡ chosen self.old }
        ensures cause { HasCause (faults self.old) (faults self.new) result };
}
