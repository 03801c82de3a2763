//! The bounds of a variable.

ghost use Rattle.std.specs.Prelude.{◌≡◌, ◌↔◌, ◌<◌, ◌≤ℤ◌, IsTrue, IsFalse, length};
ghost use Rattle.fzn_model.specs.declared.term.Term.TheVariants as term;
ghost use Rattle.fzn_model.specs.Limits.{IsValue};
ghost use Rattle.fzn_model.specs.Boxes.{IsBox, domain_at, low_value, high_value};
ghost use Rattle.fzn_model.specs.Bounds.{IsFixed};
ghost use Rattle.brancher.specs.Branching.{IsOpen};

use fzn_model::BoxView;

/// The least value of a variable, which is one of the language, and at most its greatest.
#[tactic(auto, using(crate::proofs::Values::low_is_value, crate::proofs::Values::ordered))]
pub(crate) fn low_of<V: BoxView>(var: u32, view: &V) -> i64
    requires { var < length (V.shape view.now) }
    ensures value { result ≡ low_value (domain_at (V.shape view.now) var) }
    ensures range { IsValue result }
    ensures ordered { result ≤ℤ high_value (domain_at (V.shape view.now) var) }
    ensures domains { IsBox (V.shape view.now) }
{
    view.low(var)
}

/// The greatest value of a variable.
#[tactic(auto, using(crate::proofs::Values::high_is_value))]
pub(crate) fn high_of<V: BoxView>(var: u32, view: &V) -> i64
    requires { var < length (V.shape view.now) }
    ensures value { result ≡ high_value (domain_at (V.shape view.now) var) }
    ensures range { IsValue result }
    ensures domains { IsBox (V.shape view.now) }
{
    view.high(var)
}

/// Whether the variable has several values.
pub(crate) fn is_open<V: BoxView>(var: u32, view: &V) -> bool
    requires { var < length (V.shape view.now) }
    ensures several { IsTrue result ↔ IsOpen (V.shape view.now) (term.Var var) }
    ensures one { IsFalse result → IsFixed (V.shape view.now) (term.Var var) }
{
    low_of(var, view) < high_of(var, view)
}
