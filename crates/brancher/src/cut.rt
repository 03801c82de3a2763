//! Where the domain of a variable is cut.

ghost use Rattle.std.specs.Prelude.{◌≡◌, ◌<◌, ◌≤ℤ◌, ◌<ℤ◌, ◌-ℤ◌, pos, length};
ghost use Rattle.fzn_model.specs.declared.term.Term.TheVariants as term;
ghost use Rattle.fzn_model.specs.Boxes.{IsBox, domain_at, low_value, high_value};
ghost use Rattle.fzn_model.specs.Limits.{IsValue};
ghost use Rattle.brancher.specs.Branching.{IsOpen, rule_for, IsMiddle, IsPlace, IsCutOf, HasSides};

use crate::view::{high_of, low_of};
use fzn_model::{BoxView, ValAt};

/// A cut of a variable's domain in two sides, `x <= at` and `x > at`, and which of them comes first: the one above where
/// `up_first`. `at` is a value of the language.
#[derive(Clone, Copy, Debug, PartialEq, Eq)]
pub struct Cut {
    pub var: u32,
    pub at: i64,
    pub up_first: bool,
}

/// The rule by which a variable is cut: a wide domain is split.
pub(crate) fn rule_for<V: BoxView>(var: u32, at: ValAt, view: &V) -> ValAt
    requires { var < length (V.shape view.now) }
    ensures { result ≡ rule_for (V.shape view.now) var at }
{
    if high_of(var, view) - low_of(var, view) >= 1024 {
        ValAt::Split
    } else {
        at
    }
}

/// Half of the sum, rounded down.
#[tactic(auto, using(crate::proofs::Places::middle_is), unfolding(crate::specs::Branching::IsMiddle))]
fn middle(low: i64, high: i64) -> i64
    requires low { IsValue low }
    requires high { IsValue high }
    ensures { IsMiddle low high result }
{
    (low + high).div_euclid(2)
}

fn below(high: i64) -> i64
    requires { IsValue high }
    ensures { result ≡ high -ℤ pos 1 }
{
    high - 1
}

/// Where an open variable is cut by a rule.
fn place_of<V: BoxView>(var: u32, rule: ValAt, view: &V) -> i64
    requires { var < length (V.shape view.now) }
    ensures place { IsPlace (V.shape view.now) var rule result }
    ensures domains { IsBox (V.shape view.now) }
{
    match rule {
        ValAt::Min => low_of(var, view),
        ValAt::Max => below(high_of(var, view)),
        ValAt::Split => middle(low_of(var, view), high_of(var, view)),
    }
}

/// The cut of an open variable by a rule.
pub(crate) fn cut_by<V: BoxView>(var: u32, rule: ValAt, view: &V) -> Cut
    requires var { var < length (V.shape view.now) }
    requires several { IsOpen (V.shape view.now) (term.Var var) }
    ensures cuts { IsCutOf (V.shape view.now) var rule result }
    ensures sides { HasSides (V.shape view.now) result }
{
    Cut {
        var,
        at: place_of(var, rule, view),
        up_first: rule == ValAt::Max,
    }
}
