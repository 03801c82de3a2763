ghost use Rattle.std.specs.Prelude.{◌≡◌, ◌↔◌, IsTrue, IfOk, length};
ghost use Rattle.fzn_model.specs.Sets.{IsIn};
ghost use Rattle.fzn_model.specs.Meaning.{val};
ghost use Rattle.fzn_model.specs.Limits.{TermIn};

use crate::runs::Runs;
use crate::term::Term;
use std::alloc::{AllocError, Global};

/// A term that lies in a constant set.
#[derive(Debug, Drop)]
pub struct Member {
    pub x: Term,
    pub set: Runs,
}

impl Member {
    /// Whether the value is in the set under the assignment.
    pub fn holds(&self, values: &[i64]) -> bool
        requires { TermIn (length values.now) self.now.x }
        ensures { IsTrue result ↔ IsIn self.now.set (val self.now.x values.now) }
    {
        self.set.contains(self.x.value(values))
    }

    /// The same term and set.
    pub fn copy(&self, alloc: Global) -> Result<Member, AllocError>
        ensures { IfOk result (λ copy. copy ≡ self.now) }
    {
        Ok(Member {
            x: self.x,
            set: self.set.copy(alloc)?,
        })
    }
}
