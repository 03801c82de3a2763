ghost use Rattle.std.specs.Prelude.{◌≡◌, length};
ghost use Rattle.fzn_model.specs.declared.con.Con.TheVariants as con;
ghost use Rattle.fzn_model.specs.Limits.{IsValue, ConInLimits, of_call};
ghost use Rattle.fzn_model.specs.Meaning.{Holds};
ghost use Rattle.dom_store.specs.Steps.{Step};
ghost use Rattle.arith_prop.specs.Sizes.{size_of, SizeIsBounded};
ghost use Rattle.arith_prop.specs.Passes.{IsPass};

use crate::bounds::hull;
use dom_store::{Extreme, Passed, Store, cut};
use fzn_model::Term;

/// The least or the greatest size of the numbers of a range.
fn size_of(extreme: Extreme, a: &(i64, i64)) -> i64
    requires { IsValue a.now.0 × IsValue a.now.1 }
    ensures { result ≡ size_of extreme a.now }
{
    match extreme {
        Extreme::Least => a.0.max(-a.1).max(0),
        Extreme::Greatest => (-a.0).max(a.1),
    }
}

/// Raises the result to the least size of the argument, or caps it at the greatest.
fn limit_size(store: &mut Store, extreme: Extreme, a: Term, b: Term) -> Passed
    requires { ConInLimits of_call (length store.old.box) (con.Abs a b) }
    ensures { Step (SizeIsBounded extreme a b) (Holds (con.Abs a b)) store.old store.new result }
{
    let number = size_of(extreme, &hull(store, a));
    cut(store, b, extreme, &number)
}

/// One pass over `b`, the size of `a`: narrows the result to the sizes of the numbers between the bounds of `a`.
pub(crate) fn pass_abs(store: &mut Store, a: Term, b: Term) -> Passed
    requires { ConInLimits of_call (length store.old.box) (con.Abs a b) }
    ensures { IsPass (con.Abs a b) store.old store.new result }
{
    match limit_size(store, Extreme::Least, a, b) {
        Passed::Empty => return Passed::Empty,
        Passed::Done => {}
    }
    limit_size(store, Extreme::Greatest, a, b)
}
