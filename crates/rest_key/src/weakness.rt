ghost use Rattle.std.specs.Prelude.{◌↔◌, ◌≡◌, IsTrue};
ghost use Rattle.rest_key.specs.Weaker.{WeakerLin, WeakerBase, WeakerCapacity, Weaker};
ghost use Rattle.rest_key.specs.Comparing.{CanCompare, CapacityKept};
ghost use Rattle.fzn_model.specs.Limits.{UsedInLimits, of_call};

use crate::among::{are_numbers_among, are_terms_among};
use crate::rows::are_rows_within;
use crate::same::{same_base, same_linear_terms, same_tasks, same_terms};
use crate::sets::is_set_within;
use crate::used::{leaves_as_much, uses_no_more};
use fzn_model::{Base, Con, Lin, Rel, Term, Used};

/// Whether the first linear relation has the same terms and no lesser number, or the same one.
fn is_lin_weaker(lin: &Lin, other: &Lin) -> bool
    ensures { IsTrue result ↔ WeakerLin lin.now.rel lin.now other.now.rel other.now }
{
    match (lin.rel, other.rel) {
        (Rel::Le, Rel::Le) => {
            same_linear_terms(lin.terms.as_slice(), other.terms.as_slice()) && other.r <= lin.r
        }
        (Rel::Eq, Rel::Eq) | (Rel::Ne, Rel::Ne) => {
            same_linear_terms(lin.terms.as_slice(), other.terms.as_slice()) && other.r == lin.r
        }
        _ => false,
    }
}

/// Whether the first base has more literals or a greater set.
fn is_base_weaker(base: &Base, other: &Base) -> bool
    ensures { IsTrue result ↔ WeakerBase base.now other.now }
{
    match (base, other) {
        (Base::Lin(lin), Base::Lin(other)) => is_lin_weaker(lin, other),
        (Base::Clause(clause), Base::Clause(other)) => {
            are_terms_among(other.pos.as_slice(), clause.pos.as_slice())
                && are_terms_among(other.neg.as_slice(), clause.neg.as_slice())
        }
        (Base::Member(member), Base::Member(other)) => {
            member.x == other.x && is_set_within(&other.set, &member.set)
        }
        _ => false,
    }
}

/// Whether the first capacity leaves as much at each moment.
fn is_capacity_weaker(
    used: &[Used],
    capacity: Term,
    other_used: &[Used],
    other_capacity: Term,
) -> bool
    requires used { UsedInLimits of_call used.now }
    requires other_used { UsedInLimits of_call other_used.now }
    requires capacity { CapacityKept capacity }
    requires other_capacity { CapacityKept other_capacity }
    ensures { IsTrue result ↔ WeakerCapacity used.now capacity other_used.now other_capacity }
{
    match (capacity, other_capacity) {
        (Term::Const(room), Term::Const(other_room)) => {
            leaves_as_much(room, used, other_room, other_used)
        }
        _ => capacity == other_capacity && uses_no_more(used, other_used),
    }
}

/// Whether the first constraint is weaker than the second: it is of the same kind, and part by part equal or less strict,
/// so it holds wherever the second does. A linear relation Le has the same terms and no lesser number; a clause has all
/// literals of the other; a member has the same term and a set that has the other's; an all-different has the same
/// terms and no other taken values; a cumulative has the same tasks and at each moment as much left of a constant
/// capacity, or the same variable and no more used; a table has the same columns and all rows of the other. Constraints
/// of all other kinds are equal. Takes no memory.
pub fn weaker(first: &Con, second: &Con) -> bool
    requires first { CanCompare first.now }
    requires second { CanCompare second.now }
    ensures { IsTrue result ↔ Weaker first.now second.now }
{
    match (first, second) {
        (Con::Base(base), Con::Base(other)) => is_base_weaker(base, other),
        (Con::Reif(base, truth, flag), Con::Reif(other, other_truth, other_flag)) => {
            same_base(base, other) && truth == other_truth && flag == other_flag
        }
        (Con::Times(a, b, c), Con::Times(d, e, f)) => a == d && b == e && c == f,
        (Con::Abs(a, b), Con::Abs(c, d)) => a == c && b == d,
        (Con::Div(a, b, c), Con::Div(d, e, f)) => a == d && b == e && c == f,
        (Con::Mod(a, b, c), Con::Mod(d, e, f)) => a == d && b == e && c == f,
        (Con::Greatest(m, xs), Con::Greatest(n, ys)) => {
            m == n && same_terms(xs.as_slice(), ys.as_slice())
        }
        (Con::Least(m, xs), Con::Least(n, ys)) => {
            m == n && same_terms(xs.as_slice(), ys.as_slice())
        }
        (Con::Element(i, xs, c), Con::Element(j, ys, d)) => {
            i == j && same_terms(xs.as_slice(), ys.as_slice()) && c == d
        }
        (Con::AllDiffExcept(xs, taken), Con::AllDiffExcept(ys, other_taken)) => {
            same_terms(xs.as_slice(), ys.as_slice())
                && are_numbers_among(taken.as_slice(), other_taken.as_slice())
        }
        (Con::CumulUsed(tasks, used, capacity), Con::CumulUsed(others, other_used, limit)) => {
            same_tasks(tasks.as_slice(), others.as_slice())
                && is_capacity_weaker(used.as_slice(), *capacity, other_used.as_slice(), *limit)
        }
        (Con::Table(xs, rows), Con::Table(ys, other_rows)) => {
            same_terms(xs.as_slice(), ys.as_slice())
                && are_rows_within(ys.as_slice().len(), other_rows.as_slice(), rows.as_slice())
        }
        _ => false,
    }
}
