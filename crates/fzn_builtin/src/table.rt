use crate::needs::Need::{
    self, BoolConsts, BoolTerm, BoolTerms, IntConst, IntConsts, IntTerm, IntTerms, SetConst,
};
use crate::shape::Relation::{Below, Difference, Disjunction, InSet, Sum};
use crate::shape::Shape::{self, Posted, Reified};
use fzn_model::Rel::{Eq, Le, Ne};

/// A name; what its arguments have to be, place by place; the fewest arguments (the most are as many as places); and
/// how the constraint is made of them.
pub type Row = (&'static [u8], &'static [Need], usize, Shape);

/// How many names there are.
pub const ROWS: usize = 50;

/// Every name of a constraint, once, and what it stands for (FlatZinc built-ins of the MiniZinc Handbook, and the
/// global constraints of this project's solver library, whose names begin with `fzn_` there).
#[rattlefmt::skip]
pub static TABLE: [Row; ROWS] = [
    // Comparisons of two terms.
    (b"int_eq", &[IntTerm, IntTerm], 2, Posted(Difference(Eq))),
    (b"int_ne", &[IntTerm, IntTerm], 2, Posted(Difference(Ne))),
    (b"int_le", &[IntTerm, IntTerm], 2, Posted(Difference(Le))),
    (b"int_lt", &[IntTerm, IntTerm], 2, Posted(Below)),
    (b"bool_eq", &[BoolTerm, BoolTerm], 2, Posted(Difference(Eq))),
    (b"bool_le", &[BoolTerm, BoolTerm], 2, Posted(Difference(Le))),
    (b"bool_lt", &[BoolTerm, BoolTerm], 2, Posted(Below)),
    (b"bool2int", &[BoolTerm, IntTerm], 2, Posted(Difference(Eq))),
    (b"bool_not", &[BoolTerm, BoolTerm], 2, Posted(Difference(Ne))),
    (b"bool_xor", &[BoolTerm, BoolTerm, BoolTerm], 2, Shape::Xor),
    // Linear relations: coefficients, terms, constant.
    (b"int_lin_eq", &[IntConsts, IntTerms, IntConst], 3, Posted(Sum(Eq))),
    (b"int_lin_le", &[IntConsts, IntTerms, IntConst], 3, Posted(Sum(Le))),
    (b"int_lin_ne", &[IntConsts, IntTerms, IntConst], 3, Posted(Sum(Ne))),
    // The same, where a bool tells whether they hold.
    (b"int_eq_reif", &[IntTerm, IntTerm, BoolTerm], 3, Reified(Difference(Eq))),
    (b"int_ne_reif", &[IntTerm, IntTerm, BoolTerm], 3, Reified(Difference(Ne))),
    (b"int_le_reif", &[IntTerm, IntTerm, BoolTerm], 3, Reified(Difference(Le))),
    (b"int_lt_reif", &[IntTerm, IntTerm, BoolTerm], 3, Reified(Below)),
    (b"bool_eq_reif", &[BoolTerm, BoolTerm, BoolTerm], 3, Reified(Difference(Eq))),
    (b"bool_le_reif", &[BoolTerm, BoolTerm, BoolTerm], 3, Reified(Difference(Le))),
    (b"bool_lt_reif", &[BoolTerm, BoolTerm, BoolTerm], 3, Reified(Below)),
    (b"int_lin_eq_reif", &[IntConsts, IntTerms, IntConst, BoolTerm], 4, Reified(Sum(Eq))),
    (b"int_lin_le_reif", &[IntConsts, IntTerms, IntConst, BoolTerm], 4, Reified(Sum(Le))),
    (b"int_lin_ne_reif", &[IntConsts, IntTerms, IntConst, BoolTerm], 4, Reified(Sum(Ne))),
    // Logic.
    (b"bool_and", &[BoolTerm, BoolTerm, BoolTerm], 3, Shape::BothTrue),
    (b"array_bool_and", &[BoolTerms, BoolTerm], 2, Shape::AllTrue),
    (b"bool_or", &[BoolTerm, BoolTerm, BoolTerm], 3, Shape::EitherTrue),
    (b"array_bool_or", &[BoolTerms, BoolTerm], 2, Shape::AnyTrue),
    (b"bool_clause", &[BoolTerms, BoolTerms], 2, Posted(Disjunction)),
    (b"bool_clause_reif", &[BoolTerms, BoolTerms, BoolTerm], 3, Reified(Disjunction)),
    (b"set_in", &[IntTerm, SetConst], 2, Posted(InSet)),
    (b"set_in_reif", &[IntTerm, SetConst, BoolTerm], 3, Reified(InSet)),
    // Arithmetic.
    (b"int_plus", &[IntTerm, IntTerm, IntTerm], 3, Shape::Plus),
    (b"int_times", &[IntTerm, IntTerm, IntTerm], 3, Shape::Times),
    (b"int_div", &[IntTerm, IntTerm, IntTerm], 3, Shape::Quotient),
    (b"int_mod", &[IntTerm, IntTerm, IntTerm], 3, Shape::Remainder),
    (b"int_abs", &[IntTerm, IntTerm], 2, Shape::Absolute),
    (b"int_max", &[IntTerm, IntTerm, IntTerm], 3, Shape::Larger),
    (b"int_min", &[IntTerm, IntTerm, IntTerm], 3, Shape::Smaller),
    (b"array_int_maximum", &[IntTerm, IntTerms], 2, Shape::Largest),
    (b"array_int_minimum", &[IntTerm, IntTerms], 2, Shape::Smallest),
    // A member of a list.
    (b"array_int_element", &[IntTerm, IntConsts, IntTerm], 3, Shape::Element),
    (b"array_var_int_element", &[IntTerm, IntTerms, IntTerm], 3, Shape::Element),
    (b"array_bool_element", &[IntTerm, BoolConsts, BoolTerm], 3, Shape::Element),
    (b"array_var_bool_element", &[IntTerm, BoolTerms, BoolTerm], 3, Shape::Element),
    // Global constraints, each by both of its names.
    (b"fzn_all_different_int", &[IntTerms], 1, Shape::Different),
    (b"all_different_int", &[IntTerms], 1, Shape::Different),
    (b"fzn_cumulative", &[IntTerms, IntTerms, IntTerms, IntTerm], 4, Shape::Cumulative),
    (b"cumulative", &[IntTerms, IntTerms, IntTerms, IntTerm], 4, Shape::Cumulative),
    (b"fzn_table_int", &[IntTerms, IntConsts], 2, Shape::Rows),
    (b"table_int", &[IntTerms, IntConsts], 2, Shape::Rows),
];
