//! Each name of a constraint: assignments under which it holds, and others under which it fails.

use super::{Row, rows_hold};
use std::test::Fail;

#[rattlefmt::skip]
static RELATIONS: [Row; 26] = [
    ("var -9..9: a; var -9..9: b; constraint int_eq(a,b); solve satisfy;", &[&[3, 3], &[-2, -2]], &[&[3, 4], &[4, 3], &[3, -3]]),
    ("var -9..9: a; var -9..9: b; constraint int_ne(a,b); solve satisfy;", &[&[3, 4], &[4, 3], &[3, -3]], &[&[3, 3], &[0, 0]]),
    ("var -9..9: a; var -9..9: b; constraint int_le(a,b); solve satisfy;", &[&[3, 4], &[3, 3], &[-4, 3]], &[&[4, 3], &[3, -4]]),
    ("var -9..9: a; var -9..9: b; constraint int_lt(a,b); solve satisfy;", &[&[3, 4], &[-4, -3]], &[&[3, 3], &[4, 3]]),
    ("var bool: p; var bool: q; constraint bool_eq(p,q); solve satisfy;", &[&[0, 0], &[1, 1]], &[&[0, 1], &[1, 0]]),
    ("var bool: p; var bool: q; constraint bool_le(p,q); solve satisfy;", &[&[0, 0], &[0, 1], &[1, 1]], &[&[1, 0]]),
    ("var bool: p; var bool: q; constraint bool_lt(p,q); solve satisfy;", &[&[0, 1]], &[&[0, 0], &[1, 0], &[1, 1]]),
    ("var bool: p; var -9..9: a; constraint bool2int(p,a); solve satisfy;", &[&[0, 0], &[1, 1]], &[&[0, 1], &[1, 0], &[1, -1], &[0, 2]]),
    ("var bool: p; var bool: q; constraint bool_not(p,q); solve satisfy;", &[&[0, 1], &[1, 0]], &[&[0, 0], &[1, 1]]),
    ("var bool: p; var bool: q; constraint bool_xor(p,q); solve satisfy;", &[&[0, 1], &[1, 0]], &[&[0, 0], &[1, 1]]),
    ("var bool: p; var bool: q; var bool: r; constraint bool_xor(p,q,r); solve satisfy;", &[&[0, 0, 0], &[0, 1, 1], &[1, 0, 1], &[1, 1, 0]], &[&[0, 0, 1], &[0, 1, 0], &[1, 0, 0], &[1, 1, 1]]),
    ("var -9..9: a; var -9..9: b; constraint int_lin_eq([2,-3],[a,b],7); solve satisfy;", &[&[5, 1], &[2, -1], &[-4, -5]], &[&[5, 2], &[4, 1], &[1, 5], &[-5, -1]]),
    ("var -9..9: a; var -9..9: b; constraint int_lin_le([2,-3],[a,b],-7); solve satisfy;", &[&[1, 3], &[-5, 0], &[-9, 9]], &[&[1, 2], &[3, 1], &[0, 0], &[9, -9]]),
    ("var -9..9: a; var -9..9: b; constraint int_lin_ne([2,-3],[a,b],7); solve satisfy;", &[&[5, 2], &[4, 1], &[1, 5]], &[&[5, 1], &[2, -1]]),
    ("var -9..9: a; var -9..9: b; var bool: r; constraint int_eq_reif(a,b,r); solve satisfy;", &[&[3, 3, 1], &[3, 4, 0], &[4, 3, 0]], &[&[3, 3, 0], &[3, 4, 1], &[4, 3, 1]]),
    ("var -9..9: a; var -9..9: b; var bool: r; constraint int_ne_reif(a,b,r); solve satisfy;", &[&[3, 3, 0], &[3, 4, 1], &[4, 3, 1]], &[&[3, 3, 1], &[3, 4, 0], &[4, 3, 0]]),
    ("var -9..9: a; var -9..9: b; var bool: r; constraint int_le_reif(a,b,r); solve satisfy;", &[&[3, 3, 1], &[3, 4, 1], &[4, 3, 0]], &[&[3, 3, 0], &[3, 4, 0], &[4, 3, 1]]),
    ("var -9..9: a; var -9..9: b; var bool: r; constraint int_lt_reif(a,b,r); solve satisfy;", &[&[3, 3, 0], &[3, 4, 1], &[4, 3, 0]], &[&[3, 3, 1], &[3, 4, 0], &[4, 3, 1]]),
    ("var bool: p; var bool: q; var bool: r; constraint bool_eq_reif(p,q,r); solve satisfy;", &[&[0, 0, 1], &[0, 1, 0], &[1, 0, 0], &[1, 1, 1]], &[&[0, 0, 0], &[0, 1, 1], &[1, 0, 1], &[1, 1, 0]]),
    ("var bool: p; var bool: q; var bool: r; constraint bool_le_reif(p,q,r); solve satisfy;", &[&[0, 0, 1], &[0, 1, 1], &[1, 0, 0], &[1, 1, 1]], &[&[0, 0, 0], &[0, 1, 0], &[1, 0, 1], &[1, 1, 0]]),
    ("var bool: p; var bool: q; var bool: r; constraint bool_lt_reif(p,q,r); solve satisfy;", &[&[0, 0, 0], &[0, 1, 1], &[1, 0, 0], &[1, 1, 0]], &[&[0, 0, 1], &[0, 1, 0], &[1, 0, 1], &[1, 1, 1]]),
    ("var -9..9: a; var -9..9: b; var bool: r; constraint int_lin_eq_reif([2,-3],[a,b],7,r); solve satisfy;", &[&[5, 1, 1], &[5, 2, 0], &[4, 1, 0]], &[&[5, 1, 0], &[5, 2, 1], &[4, 1, 1]]),
    ("var -9..9: a; var -9..9: b; var bool: r; constraint int_lin_le_reif([2,-3],[a,b],-7,r); solve satisfy;", &[&[1, 3, 1], &[-5, 0, 1], &[1, 2, 0], &[3, 1, 0]], &[&[1, 3, 0], &[-5, 0, 0], &[1, 2, 1], &[3, 1, 1]]),
    ("var -9..9: a; var -9..9: b; var bool: r; constraint int_lin_ne_reif([2,-3],[a,b],7,r); solve satisfy;", &[&[5, 1, 0], &[5, 2, 1], &[4, 1, 1]], &[&[5, 1, 1], &[5, 2, 0], &[4, 1, 0]]),
    ("var -9..9: a; var -9..9: b; var -9..9: c; constraint int_plus(a,b,c); solve satisfy;", &[&[2, 3, 5], &[5, -3, 2], &[-4, -5, -9]], &[&[5, 3, 2], &[2, 5, 3], &[2, 3, -5], &[2, 3, 6]]),
    ("var -9..9: x; constraint set_in(x,{1,3,4,5}); solve satisfy;", &[&[1], &[3], &[4], &[5]], &[&[0], &[2], &[6], &[-1]]),
];

/// Relations over sums, and sets.
#[test]
fn relations(rt: HostRuntime) -> Result<(), Fail> {
    rows_hold(&rt, rt.alloc(), &RELATIONS)
}

#[rattlefmt::skip]
static LOGIC: [Row; 7] = [
    ("var bool: p; var bool: q; var bool: r; constraint bool_and(p,q,r); solve satisfy;", &[&[0, 0, 0], &[0, 1, 0], &[1, 0, 0], &[1, 1, 1]], &[&[0, 0, 1], &[0, 1, 1], &[1, 0, 1], &[1, 1, 0]]),
    ("var bool: p; var bool: q; var bool: s; var bool: r; constraint array_bool_and([p,q,s],r); solve satisfy;", &[&[1, 1, 1, 1], &[0, 1, 1, 0], &[1, 0, 1, 0], &[1, 1, 0, 0], &[0, 0, 0, 0]], &[&[1, 1, 1, 0], &[0, 1, 1, 1], &[1, 0, 1, 1], &[1, 1, 0, 1], &[0, 0, 0, 1]]),
    ("var bool: p; var bool: q; var bool: r; constraint bool_or(p,q,r); solve satisfy;", &[&[0, 0, 0], &[0, 1, 1], &[1, 0, 1], &[1, 1, 1]], &[&[0, 0, 1], &[0, 1, 0], &[1, 0, 0], &[1, 1, 0]]),
    ("var bool: p; var bool: q; var bool: s; var bool: r; constraint array_bool_or([p,q,s],r); solve satisfy;", &[&[0, 0, 0, 0], &[1, 0, 0, 1], &[0, 1, 0, 1], &[0, 0, 1, 1], &[1, 1, 1, 1]], &[&[0, 0, 0, 1], &[1, 0, 0, 0], &[0, 1, 0, 0], &[0, 0, 1, 0], &[1, 1, 1, 0]]),
    ("var bool: p; var bool: q; var bool: s; constraint bool_clause([p],[q,s]); solve satisfy;", &[&[1, 1, 1], &[0, 0, 1], &[0, 1, 0], &[0, 0, 0]], &[&[0, 1, 1]]),
    ("var bool: p; var bool: q; var bool: s; var bool: r; constraint bool_clause_reif([p],[q,s],r); solve satisfy;", &[&[1, 1, 1, 1], &[0, 0, 1, 1], &[0, 1, 0, 1], &[0, 1, 1, 0]], &[&[1, 1, 1, 0], &[0, 0, 1, 0], &[0, 1, 0, 0], &[0, 1, 1, 1]]),
    ("var -9..9: x; var bool: r; constraint set_in_reif(x,{1,3,4,5},r); solve satisfy;", &[&[1, 1], &[4, 1], &[2, 0], &[6, 0], &[0, 0]], &[&[1, 0], &[4, 0], &[2, 1], &[6, 1], &[0, 1]]),
];

/// Clauses, and reified sets.
#[test]
fn logic(rt: HostRuntime) -> Result<(), Fail> {
    rows_hold(&rt, rt.alloc(), &LOGIC)
}

#[rattlefmt::skip]
static ARITHMETIC: [Row; 8] = [
    ("var -9..9: a; var -9..9: b; var -9..9: c; constraint int_times(a,b,c); solve satisfy;", &[&[2, -3, -6], &[-2, -3, 6], &[0, 9, 0]], &[&[-6, 2, -3], &[-6, -3, 2], &[2, -3, 6], &[2, 3, 5]]),
    ("var -9..9: a; var -9..9: b; var -9..9: c; constraint int_div(a,b,c); solve satisfy;", &[&[7, -2, -3], &[-7, 2, -3], &[-7, -2, 3], &[2, 7, 0]], &[&[7, -2, -4], &[-7, 2, -4], &[-7, 2, -1], &[2, 7, 3], &[7, 0, 0]]),
    ("var -9..9: a; var -9..9: b; var -9..9: c; constraint int_mod(a,b,c); solve satisfy;", &[&[7, -2, 1], &[-7, 2, -1], &[-7, -2, -1], &[2, 7, 2]], &[&[7, -2, -1], &[-7, 2, 1], &[2, 7, 1], &[7, 2, 3], &[7, 0, 7], &[7, 0, 0]]),
    ("var -9..9: a; var -9..9: b; constraint int_abs(a,b); solve satisfy;", &[&[-7, 7], &[7, 7], &[0, 0]], &[&[7, -7], &[-7, -7], &[7, 6]]),
    ("var -9..9: a; var -9..9: b; var -9..9: c; constraint int_max(a,b,c); solve satisfy;", &[&[2, 5, 5], &[5, 2, 5], &[-5, -2, -2]], &[&[5, 5, 2], &[2, 5, 2], &[5, 2, 2], &[2, 5, 6]]),
    ("var -9..9: a; var -9..9: b; var -9..9: c; constraint int_min(a,b,c); solve satisfy;", &[&[2, 5, 2], &[5, 2, 2], &[-5, -2, -5]], &[&[2, 2, 5], &[2, 5, 5], &[5, 2, 5], &[2, 5, 1]]),
    ("var -9..9: m; var -9..9: a; var -9..9: b; constraint array_int_maximum(m,[a,b]); solve satisfy;", &[&[5, 2, 5], &[5, 5, 2], &[-2, -5, -2]], &[&[2, 5, 2], &[2, 2, 5], &[6, 5, 2]]),
    ("var -9..9: m; var -9..9: a; var -9..9: b; constraint array_int_minimum(m,[a,b]); solve satisfy;", &[&[2, 2, 5], &[2, 5, 2], &[-5, -5, -2]], &[&[5, 5, 2], &[5, 2, 5], &[1, 5, 2]]),
];

/// Products, quotients, and the greatest and least of a list.
#[test]
fn arithmetic(rt: HostRuntime) -> Result<(), Fail> {
    rows_hold(&rt, rt.alloc(), &ARITHMETIC)
}

#[rattlefmt::skip]
static LISTS: [Row; 10] = [
    ("var -9..9: i; var -9..9: c; constraint array_int_element(i,[4,5,2],c); solve satisfy;", &[&[1, 4], &[2, 5], &[3, 2]], &[&[0, 4], &[1, 5], &[2, 4], &[4, 2], &[-1, 4], &[2, 3]]),
    ("var -9..9: i; var -9..9: b; var -9..9: c; constraint array_var_int_element(i,[b,5],c); solve satisfy;", &[&[1, 4, 4], &[2, 4, 5], &[1, -7, -7]], &[&[1, 4, 5], &[2, 4, 4], &[0, 4, 4], &[3, 4, 5], &[4, 1, 1]]),
    ("var -9..9: i; var bool: p; constraint array_bool_element(i,[true,false],p); solve satisfy;", &[&[1, 1], &[2, 0]], &[&[1, 0], &[2, 1], &[0, 1], &[0, 0], &[3, 0]]),
    ("var -9..9: i; var bool: q; var bool: p; constraint array_var_bool_element(i,[q,true],p); solve satisfy;", &[&[1, 0, 0], &[1, 1, 1], &[2, 0, 1]], &[&[1, 0, 1], &[1, 1, 0], &[2, 0, 0], &[0, 0, 0], &[3, 1, 1]]),
    ("var -9..9: a; var -9..9: b; var -9..9: c; constraint fzn_all_different_int([a,b,c]); solve satisfy;", &[&[1, 2, 3], &[3, -3, 0]], &[&[1, 1, 2], &[1, 2, 1], &[2, 1, 1]]),
    ("var -9..9: a; var -9..9: b; var -9..9: c; constraint all_different_int([a,b,c]); solve satisfy;", &[&[1, 2, 3], &[3, -3, 0]], &[&[1, 1, 2], &[1, 2, 1], &[2, 1, 1]]),
    ("var -9..9: s; var -9..9: d; var -9..9: r; var -9..9: b; constraint fzn_cumulative([s,0],[d,2],[r,1],b); solve satisfy;", &[&[2, 5, 3, 3], &[1, 5, 3, 4], &[-4, 4, 2, 2], &[5, 0, 9, 1]], &[&[1, 5, 3, 3], &[-4, 5, 2, 2], &[5, 1, 2, 1], &[5, 1, 1, 0], &[5, -1, 0, 9], &[5, 1, -1, 9]]),
    ("var -9..9: s; var -9..9: d; var -9..9: r; var -9..9: b; constraint cumulative([s,0],[d,2],[r,1],b); solve satisfy;", &[&[2, 5, 3, 3], &[1, 5, 3, 4], &[-4, 4, 2, 2], &[5, 0, 9, 1]], &[&[1, 5, 3, 3], &[-4, 5, 2, 2], &[5, 1, 2, 1], &[5, 1, 1, 0], &[5, -1, 0, 9], &[5, 1, -1, 9]]),
    ("var -9..9: a; var -9..9: b; constraint fzn_table_int([a,b],[1,2,3,4,2,5]); solve satisfy;", &[&[1, 2], &[3, 4], &[2, 5]], &[&[2, 1], &[2, 3], &[1, 3], &[4, 2], &[1, 4], &[3, 2]]),
    ("var -9..9: a; var -9..9: b; constraint table_int([a,b],[1,2,3,4,2,5]); solve satisfy;", &[&[1, 2], &[3, 4], &[2, 5]], &[&[2, 1], &[2, 3], &[1, 3], &[4, 2], &[1, 4], &[3, 2]]),
];

/// Constraints over lists.
#[test]
fn lists(rt: HostRuntime) -> Result<(), Fail> {
    rows_hold(&rt, rt.alloc(), &LISTS)
}
