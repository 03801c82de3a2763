ghost use Rattle.std.specs.Prelude.{◌≡◌, ◌*ℤ◌, length};
ghost use Rattle.fzn_model.specs.declared.con.Con.TheVariants as con;
ghost use Rattle.fzn_model.specs.Limits.{IsValue, ConInLimits, of_call};
ghost use Rattle.fzn_model.specs.Meaning.{Holds};
ghost use Rattle.dom_store.specs.Steps.{Step};
ghost use Rattle.arith_prop.specs.Corners.{corner, pick_by, ProductIsBounded};
ghost use Rattle.arith_prop.specs.Passes.{IsPass};

use crate::bounds::hull;
use dom_store::{Extreme, Passed, Store, cut};
use fzn_model::Term;

/// The product of two values.
fn product(a: i64, b: i64) -> i64
    requires first { IsValue a }
    requires second { IsValue b }
    ensures { result ≡ a *ℤ b }
{
    a * b
}

/// The lesser or the greater of two numbers.
fn pick(extreme: Extreme, a: i64, b: i64) -> i64
    ensures { result ≡ pick_by extreme a b }
{
    match extreme {
        Extreme::Least => a.min(b),
        Extreme::Greatest => a.max(b),
    }
}

/// The least or the greatest of the four products of the bounds of two ranges.
fn corner(extreme: Extreme, a: &(i64, i64), b: &(i64, i64)) -> i64
    requires first { IsValue a.now.0 × IsValue a.now.1 }
    requires second { IsValue b.now.0 × IsValue b.now.1 }
    ensures { result ≡ corner extreme a.now b.now }
{
    let first = pick(extreme, product(a.0, b.0), product(a.0, b.1));
    let second = pick(extreme, product(a.1, b.0), product(a.1, b.1));
    pick(extreme, first, second)
}

/// Raises the result to the least product of the bounds of the factors, or caps it at the greatest.
fn limit_product(store: &mut Store, extreme: Extreme, a: Term, b: Term, c: Term) -> Passed
    requires { ConInLimits of_call (length store.old.box) (con.Times a b c) }
    ensures { Step (ProductIsBounded extreme a b c) (Holds (con.Times a b c)) store.old store.new result }
{
    let number = corner(extreme, &hull(store, a), &hull(store, b));
    cut(store, c, extreme, &number)
}

/// One pass over `a * b = c`: narrows the result to the products of the bounds of the factors.
pub(crate) fn pass_times(store: &mut Store, a: Term, b: Term, c: Term) -> Passed
    requires { ConInLimits of_call (length store.old.box) (con.Times a b c) }
    ensures { IsPass (con.Times a b c) store.old store.new result }
{
    match limit_product(store, Extreme::Least, a, b, c) {
        Passed::Empty => return Passed::Empty,
        Passed::Done => {}
    }
    limit_product(store, Extreme::Greatest, a, b, c)
}
