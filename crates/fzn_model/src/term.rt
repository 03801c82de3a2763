ghost use Rattle.std.specs.Prelude.{◌≡◌, length};
ghost use Rattle.fzn_model.specs.Meaning.{val};
ghost use Rattle.fzn_model.specs.Limits.{TermIn};

/// The greatest value, bound, coefficient or constant of a model; the least is its negative. This project's own limit.
pub const LARGEST_VALUE: i64 = 1_000_000;

/// A constant, or a variable by its number from 0.
#[derive(Clone, Copy, Debug, PartialEq, Eq)]
pub enum Term {
    Const(i64),
    Var(u32),
}

impl Term {
    /// The value of the term under the assignment.
    pub fn value(self, values: &[i64]) -> i64
        requires { TermIn (length values.now) self }
        ensures { result ≡ val self values.now }
    {
        match self {
            Term::Const(value) => value,
            Term::Var(var) => values[var as usize],
        }
    }
}
