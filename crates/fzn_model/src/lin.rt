ghost use Rattle.std.specs.Prelude.{◌≡◌, ◌↔◌, ◌*◌, ◌≤◌, ◌^◌, ◌*ℤ◌, IsTrue, IfOk, All, map, length, unsigned_abs};
ghost use Rattle.fzn_model.specs.Meaning.{val, lin_sum, Stands};
ghost use Rattle.fzn_model.specs.Limits.{IsValue, TermIn, SumInLimits, LinInLimits, of_call};
ghost use Rattle.fzn_model.specs.Opposites.{negated_one, negated, opposite};

use crate::list::List;
use crate::term::Term;
use std::alloc::{AllocError, Global};

/// How a sum stands to a number: at most it, equal to it, or different from it.
#[derive(Clone, Copy, Debug, PartialEq, Eq)]
pub enum Rel {
    Le,
    Eq,
    Ne,
}

/// A linear relation: the sum of coefficient times term, against `r`.
#[derive(Debug, Drop)]
pub struct Lin {
    pub rel: Rel,
    pub terms: List<(i64, Term)>,
    pub r: i128,
}

impl Rel {
    fn stands(self, a: i128, b: i128) -> bool
        ensures { IsTrue result ↔ Stands self a b }
    {
        match self {
            Rel::Le => a <= b,
            Rel::Eq => a == b,
            Rel::Ne => a != b,
        }
    }
}

/// Coefficient times value.
fn scaled(term: &(i64, Term), values: &[i64]) -> i128
    requires factor { IsValue term.now.0 }
    requires term { TermIn (length values.now) term.now.1 }
    ensures value { result ≡ term.now.0 *ℤ val term.now.1 values.now }
    ensures small { unsigned_abs result ≤ 1000000000 * 2 ^ 63 }
{
    i128::from(term.0) * i128::from(term.1.value(values))
}

/// The sum of coefficient times value.
fn sum_of(terms: &[(i64, Term)], values: &[i64]) -> i128
    requires { SumInLimits (length values.now) terms.now }
    ensures { result ≡ lin_sum terms.now values.now }
{
    let mut sum: i128 = 0;
    for term in terms {
        sum += scaled(term, values);
    }
    sum
}

/// A coefficient with its sign negated, beside its term.
#[tactic(auto, unfolding(crate::specs::Opposites::negated_one))]
fn negated_one(term: &(i64, Term)) -> (i64, Term)
    requires { IsValue term.now.0 }
    ensures { result ≡ negated_one term.now }
{
    (-term.0, term.1)
}

/// The negative of a sum.
fn negated(alloc: Global, terms: &[(i64, Term)]) -> Result<Vec<(i64, Term)>, AllocError>
    requires { All (λ t. IsValue t.0) terms.now }
    ensures { IfOk result (λ negative. negative.items ≡ negated terms.now) }
{
    terms.iter().map(|term| negated_one(term)).collect(alloc)
}

impl Lin {
    /// Whether the relation holds under the assignment.
    pub fn holds(&self, values: &[i64]) -> bool
        requires { LinInLimits of_call (length values.now) self.now }
        ensures { IsTrue result ↔ Stands self.now.rel (lin_sum self.now.terms values.now) self.now.r }
    {
        self.rel
            .stands(sum_of(self.terms.as_slice(), values), self.r)
    }

    /// The same relation.
    pub fn copy(&self, alloc: Global) -> Result<Lin, AllocError>
        ensures { IfOk result (λ copy. copy ≡ self.now) }
    {
        Ok(Lin {
            rel: self.rel,
            terms: self.terms.copy(alloc)?,
            r: self.r,
        })
    }

    /// The relation that holds exactly where this one doesn't. The number may be one further from 0.
    #[tactic(auto, unfolding(crate::specs::Opposites::opposite))]
    pub fn opposite(&self, alloc: Global) -> Result<Lin, AllocError>
        requires factors { All (λ t. IsValue t.0) self.now.terms }
        requires constant { unsigned_abs self.now.r ≤ 2 ^ 100 }
        ensures { IfOk result (λ other. other ≡ opposite self.now) }
    {
        let other = match self.rel {
            Rel::Le => Lin {
                rel: Rel::Le,
                terms: List::from_vec(negated(alloc, self.terms.as_slice())?),
                r: -self.r - 1,
            },
            Rel::Eq => Lin {
                rel: Rel::Ne,
                terms: self.terms.copy(alloc)?,
                r: self.r,
            },
            Rel::Ne => Lin {
                rel: Rel::Eq,
                terms: self.terms.copy(alloc)?,
                r: self.r,
            },
        };
        Ok(other)
    }
}
