//! Each kind of constraint at its edges.

use super::{Row, rows_hold};
use std::test::Fail;

/// The greatest value.
const V: i64 = 1_000_000;

#[rattlefmt::skip]
static SUMS: [Row; 8] = [
    ("var int: a; var int: b; constraint int_lin_le([2,-3,1],[a,b,1],5); solve satisfy;", &[&[2, 0], &[0, -1], &[V, V]], &[&[3, 0], &[0, -2], &[-V, -V]]),
    ("var int: a; var int: b; constraint int_lin_le([1000000,1000000],[a,b],1000000); solve satisfy;", &[&[V, -V], &[V, -999_999], &[-V, -V]], &[&[V, -999_998], &[V, V], &[0, 2]]),
    ("var int: a; var int: b; constraint int_lin_eq([1,-1],[a,b],0); solve satisfy;", &[&[5, 5], &[-V, -V]], &[&[-5, 5], &[V, -V]]),
    ("var int: a; var int: b; constraint int_lin_ne([1,1],[a,b],0); solve satisfy;", &[&[5, 5], &[V, 0]], &[&[5, -5], &[0, 0]]),
    ("var int: a; constraint int_lin_le([],[],0); constraint int_lin_eq([0,2,-2],[a,a,a],0); solve satisfy;", &[&[9], &[-V]], &[]),
    ("var int: a; constraint int_lin_le([],[],-1); solve satisfy;", &[], &[&[9], &[-V]]),
    ("var int: a; constraint int_lin_ne([],[],0); solve satisfy;", &[], &[&[9], &[0]]),
    ("var int: a; var int: b; var bool: r; constraint int_lin_le_reif([1,1],[a,b],3,r); solve satisfy;", &[&[1, 2, 1], &[2, 2, 0], &[-V, V, 1]], &[&[1, 2, 0], &[2, 2, 1], &[V, V, 1]]),
];

/// Coefficients of both signs and 0, the greatest numbers, and no terms.
#[test]
fn sums(rt: HostRuntime) -> Result<(), Fail> {
    rows_hold(&rt, rt.alloc(), &SUMS)
}

#[rattlefmt::skip]
static CLAUSES_AND_SETS: [Row; 10] = [
    ("var bool: a; var bool: b; var bool: c; constraint bool_clause([a,c],[b]); solve satisfy;", &[&[1, 1, 0], &[0, 1, 1], &[0, 0, 0]], &[&[0, 1, 0]]),
    ("var bool: a; constraint bool_clause([a,false],[true,true]); solve satisfy;", &[&[1]], &[&[0]]),
    ("var bool: a; constraint bool_clause([a],[a]); constraint bool_clause([true],[]); constraint bool_clause([],[false]); solve satisfy;", &[&[0], &[1]], &[]),
    ("var bool: a; constraint bool_clause([],[]); solve satisfy;", &[], &[&[0], &[1]]),
    ("var bool: r; constraint array_bool_and([],r); solve satisfy;", &[&[1]], &[&[0]]),
    ("var bool: r; constraint array_bool_or([],r); solve satisfy;", &[&[0]], &[&[1]]),
    ("var int: a; constraint set_in(a,{-5,-4,-3,-2,3}); solve satisfy;", &[&[-5], &[-2], &[3]], &[&[-6], &[-1], &[2], &[4]]),
    ("var int: a; constraint set_in(a,{1000000,-1000000}); solve satisfy;", &[&[-V], &[V]], &[&[0], &[999_999]]),
    ("var int: a; constraint set_in(a,{}); solve satisfy;", &[], &[&[0]]),
    ("var int: a; var bool: r; constraint set_in_reif(a,{1,2,4,5,6},r); solve satisfy;", &[&[2, 1], &[3, 0], &[6, 1], &[7, 0]], &[&[2, 0], &[3, 1], &[7, 1]]),
];

/// Literals of both signs and constants, no literal, and sets with gaps.
#[test]
fn clauses_and_sets(rt: HostRuntime) -> Result<(), Fail> {
    rows_hold(&rt, rt.alloc(), &CLAUSES_AND_SETS)
}

#[rattlefmt::skip]
static ARITHMETIC: [Row; 4] = [
    ("var int: a; var int: b; var int: c; constraint int_times(a,b,c); solve satisfy;", &[&[3, -4, -12], &[-3, -4, 12], &[0, V, 0], &[-1, -V, V], &[1000, 1000, V]], &[&[3, -4, 12], &[V, V, V], &[0, 0, 1]]),
    ("var int: a; var int: b; constraint int_abs(a,b); solve satisfy;", &[&[-7, 7], &[7, 7], &[0, 0], &[-V, V]], &[&[7, -7], &[-7, -7], &[0, 1], &[-V, -V]]),
    ("var int: a; var int: b; var int: c; constraint int_div(a,b,c); solve satisfy;", &[&[7, 2, 3], &[-7, 2, -3], &[7, -2, -3], &[-7, -2, 3], &[-3, 5, 0], &[0, -5, 0], &[-V, -1, V], &[V, -V, -1]], &[&[7, 2, 4], &[-7, 2, -4], &[7, -2, -4], &[-7, -2, 4], &[-3, 5, -1], &[5, 0, 0], &[0, 0, 0]]),
    ("var int: a; var int: b; var int: c; constraint int_mod(a,b,c); solve satisfy;", &[&[7, 2, 1], &[-7, 2, -1], &[7, -2, 1], &[-7, -2, -1], &[6, -3, 0], &[3, 5, 3], &[-V, V, 0], &[-999_999, V, -999_999]], &[&[-7, 2, 1], &[7, -2, -1], &[-7, -2, 1], &[5, 0, 5], &[5, 0, 0], &[0, 0, 0]]),
];

/// Both signs, the greatest values, and the divisor 0.
#[test]
fn arithmetic(rt: HostRuntime) -> Result<(), Fail> {
    rows_hold(&rt, rt.alloc(), &ARITHMETIC)
}

#[rattlefmt::skip]
static LISTS: [Row; 11] = [
    ("var int: a; var int: b; var int: c; constraint array_int_maximum(a,[b,c,-3]); solve satisfy;", &[&[5, 5, 2], &[5, 2, 5], &[-3, -9, -4], &[V, -V, V]], &[&[2, 5, 2], &[6, 5, 2], &[-4, -9, -4]]),
    ("var int: a; var int: b; var int: c; constraint array_int_minimum(a,[b,c,-3]); solve satisfy;", &[&[-3, 0, 0], &[-5, -5, 2], &[-V, V, -V]], &[&[-3, -5, 2], &[-6, -5, 2], &[0, 0, 0]]),
    ("var int: a; var int: b; constraint array_int_maximum(a,[b]); constraint array_int_minimum(b,[a]); solve satisfy;", &[&[-1, -1]], &[&[9, -1], &[-1, 9]]),
    ("var int: a; var int: b; var int: c; constraint array_var_int_element(a,[b,7],c); solve satisfy;", &[&[1, 4, 4], &[2, 4, 7]], &[&[0, 4, 4], &[1, 4, 7], &[2, 4, 4], &[3, 4, 7], &[-1, 4, 7], &[-V, 4, 4], &[V, 4, 7]]),
    ("var int: a; var int: b; constraint array_int_element(a,[],b); solve satisfy;", &[], &[&[0, 0], &[1, 0]]),
    ("var int: a; var int: b; var int: c; constraint all_different_int([a,b,c,4,-1000000]); solve satisfy;", &[&[1, 2, 3], &[3, -4, 0], &[V, 0, 1]], &[&[1, 1, 2], &[1, 2, 1], &[2, 1, 1], &[4, 1, 2], &[1, 2, 4], &[1, -V, 2]]),
    ("var int: a; constraint all_different_int([]); constraint all_different_int([a]); solve satisfy;", &[&[4]], &[]),
    ("var int: a; constraint all_different_int([4,4]); solve satisfy;", &[], &[&[1]]),
    ("var int: a; var int: b; constraint table_int([a,b],[1,2,3,4]); solve satisfy;", &[&[1, 2], &[3, 4]], &[&[1, 4], &[2, 3], &[3, 2], &[2, 1]]),
    ("var int: a; constraint table_int([a],[1000000,-1000000]); solve satisfy;", &[&[V], &[-V]], &[&[0]]),
    ("var int: a; constraint table_int([a],[]); solve satisfy;", &[], &[&[0]]),
];

/// The greatest and the least of a list, its elements, values that differ, and rows of a table.
#[test]
fn lists(rt: HostRuntime) -> Result<(), Fail> {
    rows_hold(&rt, rt.alloc(), &LISTS)
}

#[rattlefmt::skip]
static TASKS: [Row; 4] = [
    ("var int: s; var int: d; var int: r; constraint cumulative([s],[d],[r],2); solve satisfy;", &[&[0, 3, 2], &[0, 0, 3], &[0, 3, 0], &[-V, V, 2], &[V, V, 2]], &[&[0, 3, 3], &[0, -1, 1], &[0, 3, -1], &[0, 0, -1], &[V, 1, V]]),
    ("var int: a; var int: b; var int: c; constraint cumulative([a,b],[3,2],[1,1],c); solve satisfy;", &[&[0, 3, 1], &[2, 0, 1], &[0, 2, 2], &[-1, -1, 2]], &[&[0, 2, 1], &[1, 0, 1], &[5, 5, 1], &[0, 9, 0]]),
    ("var int: s; var int: d; var int: b; constraint cumulative([s,2],[d,3],[1,2],b); solve satisfy;", &[&[0, 2, 2], &[5, 9, 2], &[0, 3, 3], &[3, 0, 2]], &[&[0, 3, 2], &[4, 1, 2], &[0, 0, 1]]),
    ("var int: b; constraint cumulative([],[],[],b); constraint cumulative([5,3],[0,9],[9,0],b); solve satisfy;", &[&[0], &[V]], &[&[-1], &[-V]]),
];

/// Tasks that touch and overlap, without length or use, with a negative one, and a negative limit.
#[test]
fn tasks(rt: HostRuntime) -> Result<(), Fail> {
    rows_hold(&rt, rt.alloc(), &TASKS)
}
