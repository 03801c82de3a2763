//! Clauses and sets, posted and reified.

use super::{Row, all_fix};
use prop_engine::Fixed::{Empty, Kept};
use std::test::Fail;

#[rattlefmt::skip]
static ROWS: [Row; 64] = [
    // `a` or not `b`; no literal, one that stands twice, and one that is left.
    ("var bool: a; var bool: b; constraint bool_clause([a],[b]); constraint bool_eq(b,true); solve satisfy;", Kept, &[&[(1, 1)], &[(1, 1)]]),
    ("var bool: a; var bool: b; constraint bool_clause([a],[b]); constraint bool_eq(a,false); solve satisfy;", Kept, &[&[(0, 0)], &[(0, 0)]]),
    ("var bool: a; var bool: b; constraint bool_clause([a],[b]); constraint bool_eq(a,false); constraint bool_eq(b,true); solve satisfy;", Empty, &[]),
    ("var bool: a; var bool: b; constraint bool_clause([a],[b]); solve satisfy;", Kept, &[&[(0, 1)], &[(0, 1)]]),
    ("var bool: a; var bool: b; constraint bool_clause([a],[b]); constraint bool_eq(a,true); solve satisfy;", Kept, &[&[(1, 1)], &[(0, 1)]]),
    ("var bool: a; var bool: b; constraint bool_clause([a],[b]); constraint bool_eq(b,false); solve satisfy;", Kept, &[&[(0, 1)], &[(0, 0)]]),
    ("var bool: a; var bool: b; constraint bool_clause([],[]); solve satisfy;", Empty, &[]),
    ("var bool: a; var bool: b; constraint bool_clause([a,a],[]); solve satisfy;", Kept, &[&[(0, 1)], &[(0, 1)]]),
    ("var bool: a; var bool: b; constraint bool_clause([false],[a,true]); solve satisfy;", Kept, &[&[(0, 0)], &[(0, 1)]]),
    // A variable, or a constant, in a set: with gaps, without a number, below all; a wide domain that stays wide, and one that does not.
    ("var 1..9: x; constraint set_in(x,{2,4,5}); solve satisfy;", Kept, &[&[(2, 2), (4, 5)]]),
    ("var 6..8: x; constraint set_in(x,{2,3,4,5,9}); solve satisfy;", Empty, &[]),
    ("var 6..8: x; constraint set_in(x,2..5); solve satisfy;", Empty, &[]),
    ("var 6..8: x; constraint set_in(x,{-5,-4,3,5,6,7,8}); solve satisfy;", Kept, &[&[(6, 8)]]),
    ("var 0..5000: x; constraint set_in(x,10..4500); solve satisfy;", Kept, &[&[(10, 4500)]]),
    ("var 0..5000: x; constraint set_in(x,{10,11,4000,4500}); solve satisfy;", Kept, &[&[(10, 4500)]]),
    ("var 0..5000: x; constraint set_in(x,{9,10,1000,1032}); solve satisfy;", Kept, &[&[(9, 10), (1000, 1000), (1032, 1032)]]),
    ("var 0..5000: x; constraint set_in(x,{9,10,1000,1033}); solve satisfy;", Kept, &[&[(9, 1033)]]),
    ("constraint set_in(5,{2,4,5}); solve satisfy;", Kept, &[]),
    ("constraint set_in(3,{2,4,5}); solve satisfy;", Empty, &[]),
    ("constraint set_in(3,{}); solve satisfy;", Empty, &[]),
    ("var 0..3: x; constraint set_in(x,{}); solve satisfy;", Empty, &[]),
    // A bool tells of a clause, of all of some bools, of a set; domains with gaps, wide ones, constants.
    ("var bool: x; var bool: y; var bool: r; constraint bool_clause_reif([x],[y],r); solve satisfy;", Kept, &[&[(0, 1)], &[(0, 1)], &[(0, 1)]]),
    ("var bool: x; var bool: y; var bool: r; constraint bool_clause_reif([x],[y],r); constraint bool_eq(x,true); solve satisfy;", Kept, &[&[(1, 1)], &[(0, 1)], &[(1, 1)]]),
    ("var bool: x; var bool: y; var bool: r; constraint bool_clause_reif([x],[y],r); constraint bool_eq(x,false); constraint bool_eq(y,false); solve satisfy;", Kept, &[&[(0, 0)], &[(0, 0)], &[(1, 1)]]),
    ("var bool: x; var bool: y; var bool: r; constraint bool_clause_reif([x],[y],r); constraint bool_eq(x,false); constraint bool_eq(y,true); solve satisfy;", Kept, &[&[(0, 0)], &[(1, 1)], &[(0, 0)]]),
    ("var bool: x; var bool: y; var bool: r; constraint bool_clause_reif([x],[y],r); constraint bool_eq(x,false); solve satisfy;", Kept, &[&[(0, 0)], &[(0, 1)], &[(0, 1)]]),
    ("var bool: x; var bool: y; var bool: r; constraint bool_clause_reif([x],[y],r); constraint bool_eq(r,false); solve satisfy;", Kept, &[&[(0, 0)], &[(1, 1)], &[(0, 0)]]),
    ("var bool: x; var bool: y; var bool: r; constraint bool_clause_reif([x],[y],r); constraint bool_eq(y,false); constraint bool_eq(r,false); solve satisfy;", Empty, &[]),
    ("var bool: x; var bool: y; var bool: r; constraint bool_clause_reif([x],[y],r); constraint bool_eq(x,false); constraint bool_eq(y,true); constraint bool_eq(r,true); solve satisfy;", Empty, &[]),
    ("var bool: r; constraint bool_clause_reif([],[],r); solve satisfy;", Kept, &[&[(0, 0)]]),
    ("var bool: x; var bool: y; var bool: r; constraint bool_clause_reif([false],[true,x],r); constraint bool_eq(r,false); solve satisfy;", Kept, &[&[(1, 1)], &[(0, 1)], &[(0, 0)]]),
    ("var bool: x; var bool: y; var bool: r; constraint array_bool_and([x,y],r); constraint bool_eq(x,false); solve satisfy;", Kept, &[&[(0, 0)], &[(0, 1)], &[(0, 0)]]),
    ("var bool: x; var bool: y; var bool: r; constraint array_bool_and([x,y],r); constraint bool_eq(x,true); constraint bool_eq(y,true); solve satisfy;", Kept, &[&[(1, 1)], &[(1, 1)], &[(1, 1)]]),
    ("var bool: x; var bool: y; var bool: r; constraint array_bool_and([x,y],r); constraint bool_eq(r,true); solve satisfy;", Kept, &[&[(1, 1)], &[(1, 1)], &[(1, 1)]]),
    ("var bool: x; var bool: y; var bool: r; constraint array_bool_and([x,y],r); constraint bool_eq(x,true); constraint bool_eq(r,false); solve satisfy;", Kept, &[&[(1, 1)], &[(0, 0)], &[(0, 0)]]),
    ("var bool: x; var bool: y; var bool: r; constraint array_bool_and([x,y],r); constraint bool_eq(x,true); constraint bool_eq(y,true); constraint bool_eq(r,false); solve satisfy;", Empty, &[]),
    ("var bool: x; var bool: y; var bool: r; constraint array_bool_and([x,y],r); constraint bool_eq(x,true); solve satisfy;", Kept, &[&[(1, 1)], &[(0, 1)], &[(0, 1)]]),
    ("var bool: r; constraint array_bool_and([],r); solve satisfy;", Kept, &[&[(1, 1)]]),
    ("var bool: x; var bool: y; var bool: r; constraint bool_and(x,y,r); constraint bool_eq(x,true); constraint bool_eq(y,false); solve satisfy;", Kept, &[&[(1, 1)], &[(0, 0)], &[(0, 0)]]),
    ("var bool: x; var bool: y; var bool: r; constraint bool_or(x,y,r); constraint bool_eq(x,false); constraint bool_eq(r,true); solve satisfy;", Kept, &[&[(0, 0)], &[(1, 1)], &[(1, 1)]]),
    ("var bool: x; var bool: y; var bool: r; constraint bool_or(x,y,r); constraint bool_eq(x,true); constraint bool_eq(r,false); solve satisfy;", Empty, &[]),
    ("var 6..8: x; var bool: r; constraint set_in_reif(x,{0,1,2,4,6,7,8,9},r); solve satisfy;", Kept, &[&[(6, 8)], &[(1, 1)]]),
    ("var 4..4: x; var bool: r; constraint set_in_reif(x,{0,1,2,4,6,7,8,9},r); solve satisfy;", Kept, &[&[(4, 4)], &[(1, 1)]]),
    ("var 2..8: x; var bool: r; constraint set_in_reif(x,{0,1,2,4,6,7,8,9},r); solve satisfy;", Kept, &[&[(2, 8)], &[(0, 1)]]),
    ("var -3..2: x; var bool: r; constraint set_in_reif(x,{0,1,2,4,6,7,8,9},r); solve satisfy;", Kept, &[&[(-3, 2)], &[(0, 1)]]),
    ("var -3..-1: x; var bool: r; constraint set_in_reif(x,{0,1,2,4,6,7,8,9},r); solve satisfy;", Kept, &[&[(-3, -1)], &[(0, 0)]]),
    ("var 5..5: x; var bool: r; constraint set_in_reif(x,{0,1,2,4,6,7,8,9},r); solve satisfy;", Kept, &[&[(5, 5)], &[(0, 0)]]),
    ("var 1..7: x; var bool: r; constraint set_in_reif(x,{0,1,2,4,6,7,8,9},r); constraint bool_eq(r,false); solve satisfy;", Kept, &[&[(3, 3), (5, 5)], &[(0, 0)]]),
    ("var 6..9: x; var bool: r; constraint set_in_reif(x,{0,1,2,4,6,7,8,9},r); constraint bool_eq(r,false); solve satisfy;", Empty, &[]),
    ("var 4..9: x; var bool: r; constraint set_in_reif(x,{},r); solve satisfy;", Kept, &[&[(4, 9)], &[(0, 0)]]),
    // Wide domains, of which bounds alone are kept; one that is narrow enough for gaps once its ends are gone.
    ("var 4100..6000: x; var bool: r; constraint set_in_reif(x,4000..6000,r); solve satisfy;", Kept, &[&[(4100, 6000)], &[(1, 1)]]),
    ("var 55..5000: x; var bool: r; constraint set_in_reif(x,{55,56,57,5000},r); solve satisfy;", Kept, &[&[(55, 5000)], &[(0, 1)]]),
    ("var 61..3999: x; var bool: r; constraint set_in_reif(x,{50,60,4000,6000},r); solve satisfy;", Kept, &[&[(61, 3999)], &[(0, 0)]]),
    ("var 0..5000: x; var bool: r; constraint set_in_reif(x,{0,1,2,3,50,60,4999,5000},r); constraint bool_eq(r,false); solve satisfy;", Kept, &[&[(4, 4998)], &[(0, 0)]]),
    ("var -2..1026: x; var bool: r; constraint set_in_reif(x,{-2,-1,0,1,50,51,52},r); constraint bool_eq(r,false); solve satisfy;", Kept, &[&[(2, 1026)], &[(0, 0)]]),
    ("var -2..1025: x; var bool: r; constraint set_in_reif(x,{-2,-1,0,1,50,51,52},r); constraint bool_eq(r,false); solve satisfy;", Kept, &[&[(2, 49), (53, 1025)], &[(0, 0)]]),
    ("var {1,2,5}: x; var bool: r; constraint set_in_reif(x,{0,1,2,5,6,7,8,9},r); solve satisfy;", Kept, &[&[(1, 2), (5, 5)], &[(1, 1)]]),
    ("var {1,2,5}: x; var bool: r; constraint set_in_reif(x,{-4,-3,-2,-1,0,3,4,6},r); solve satisfy;", Kept, &[&[(1, 2), (5, 5)], &[(0, 0)]]),
    ("var {1,2,5}: x; var bool: r; constraint set_in_reif(x,{0,1,5,6,7,8,9},r); solve satisfy;", Kept, &[&[(1, 2), (5, 5)], &[(0, 1)]]),
    ("var bool: r; constraint set_in_reif(4,{4,6,7,8,9},r); solve satisfy;", Kept, &[&[(1, 1)]]),
    ("var bool: r; constraint set_in_reif(5,{4,6,7,8,9},r); solve satisfy;", Kept, &[&[(0, 0)]]),
    ("constraint set_in_reif(5,{4,6,7,8,9},false); solve satisfy;", Kept, &[]),
    ("constraint set_in_reif(5,{4,6,7,8,9},true); solve satisfy;", Empty, &[]),
    ("constraint set_in_reif(4,{4,6,7,8,9},false); solve satisfy;", Empty, &[]),
];

#[test]
fn truths_narrow(rt: HostRuntime) -> Result<(), Fail> {
    all_fix(&rt, rt.alloc(), &ROWS)
}
