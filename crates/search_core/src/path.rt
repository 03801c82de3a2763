ghost use Rattle.std.specs.Prelude.{◌≡◌, ◌<◌, ◌≤◌, [], ◌∷◌, ◌++◌, List, length, IfOk, IsOk, OnOk, OnErr};
ghost use Rattle.search_core.specs.declared.decision.Decision.{Decision};

use crate::decision::Decision;
use smallvec::SmallVec;
use std::alloc::{AllocError, Global};
use std::marker::Model;

/// A list of decisions, the first one that of the root. It stands for the assignments that obey each of them. The first
/// eight decisions need no allocator.
#[derive(Drop)]
pub struct Path {
    items: SmallVec<Decision, 8>,
}

impl Model for Path {
    ghost use Rattle.std.specs.Prelude.{List, ◌≤◌};
    ghost use Rattle.search_core.specs.declared.decision.Decision.{Decision};

    ghost Value = { List Decision };

    ghost view = { λ path. path.items.items };

    ghost invariant = { λ path. 8 ≤ path.items.capacity };
}

impl Path {
    /// The empty path, which each assignment meets. Takes no memory.
    pub fn new(alloc: Global) -> Path
        ensures { result ≡ [] }
    {
        Path {
            items: SmallVec::new(alloc),
        }
    }

    /// Adds a decision at the end. On refusal the path is unchanged; a path of fewer than eight decisions isn't refused.
    pub fn push(&mut self, decision: Decision) -> Result<(), AllocError>
        ensures ok { OnOk result (self.new ≡ self.old ++ decision ∷ []) }
        ensures err { OnErr result (self.new ≡ self.old) }
        ensures succeeds { length self.old < 8 → IsOk result }
    {
        self.items.push(decision)?;
        Ok(())
    }

    /// Takes the last decision off.
    pub fn pop(&mut self)
        requires { 0 < length self.old }
        ensures { (front : List Decision) (last : Decision) → self.old ≡ front ++ last ∷ [] → self.new ≡ front }
    {
        let _ = self.items.pop();
    }

    /// The same path. A path of at most eight decisions isn't refused.
    pub fn copy(&self) -> Result<Path, AllocError>
        ensures ok { IfOk result (λ copy. copy ≡ self.now) }
        ensures succeeds { length self.now ≤ 8 → IsOk result }
    {
        Ok(Path {
            items: SmallVec::from_slice(*self.items.allocator(), self.items.as_slice())?,
        })
    }

    /// The decisions, in order.
    pub fn decisions(&self) -> &[Decision]
        ensures { result.now ≡ self.now }
    {
        self.items.as_slice()
    }
}
