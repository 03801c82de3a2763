//! Linear relations, posted and reified.

use super::{Row, all_fix};
use prop_engine::Fixed::{EarlyStop, Empty, Kept};
use std::test::Fail;

#[rattlefmt::skip]
static ROWS: [Row; 40] = [
    // A sum at most a number, the same as it, and other than it: coefficients of both signs and 0, constants, a variable that stands twice.
    ("var 0..9: x; var 0..9: y; constraint int_lin_le([2,3],[x,y],6); solve satisfy;", Kept, &[&[(0, 3)], &[(0, 2)]]),
    ("var 0..9: x; var 0..9: y; constraint int_lin_le([-2,3],[x,y],-9); solve satisfy;", Kept, &[&[(5, 9)], &[(0, 3)]]),
    ("var 0..9: x; var 0..9: y; constraint int_lin_le([2,3],[x,y],-1); solve satisfy;", Empty, &[]),
    ("var 0..9: x; constraint int_lin_le([1,-1],[x,x],0); solve satisfy;", Kept, &[&[(0, 9)]]),
    ("var 0..9: x; var 0..9: y; constraint int_lin_le([0,1],[x,y],4); solve satisfy;", Kept, &[&[(0, 9)], &[(0, 4)]]),
    ("var 0..9: x; constraint int_lin_le([],[],-1); solve satisfy;", Empty, &[]),
    ("var 0..9: x; var 0..9: y; constraint int_lin_eq([1,1],[x,y],17); solve satisfy;", Kept, &[&[(8, 9)], &[(8, 9)]]),
    ("var 0..9: x; var 3..4: y; constraint int_lin_eq([1,-2],[x,y],0); solve satisfy;", Kept, &[&[(6, 8)], &[(3, 4)]]),
    ("var 0..9: x; var 0..0: y; constraint int_lin_eq([2,1],[x,y],7); solve satisfy;", Empty, &[]),
    ("var 0..9: x; var 0..9: y; constraint int_lin_eq([1,1],[x,5],7); solve satisfy;", Kept, &[&[(2, 2)], &[(0, 9)]]),
    ("var 0..3: x; var 2..2: y; constraint int_lin_ne([1,1],[x,y],5); solve satisfy;", Kept, &[&[(0, 2)], &[(2, 2)]]),
    ("var 0..3: x; var 2..2: y; constraint int_lin_ne([2,1],[x,y],5); solve satisfy;", Kept, &[&[(0, 3)], &[(2, 2)]]),
    ("var 0..3: x; var 0..3: y; constraint int_lin_ne([1,1],[x,y],6); solve satisfy;", Kept, &[&[(0, 3)], &[(0, 3)]]),
    ("var 3..3: x; var 2..2: y; constraint int_lin_ne([1,1],[x,y],5); solve satisfy;", Empty, &[]),
    ("var 1..3: x; constraint int_lin_le([1],[x],0); solve satisfy;", Empty, &[]),
    // Where bounds fall far at once, nothing stops early; where they creep, it does.
    ("var 0..9: x; var int: a; var int: b; constraint int_lin_eq([1,-1],[x,a],-1); constraint int_lin_eq([1,-1],[x,b],-2); solve satisfy;", Kept, &[&[(0, 9)], &[(1, 10)], &[(2, 11)]]),
    ("var -1000000..1000000: x; constraint int_lin_le([2,-1],[x,x],0); solve satisfy;", Kept, &[&[(-1000000, 0)]]),
    ("var -1000000..1000000: x; var -1000000..1000000: y; constraint int_lt(x,y); constraint int_lt(y,x); solve satisfy;", EarlyStop, &[]),
    // A bool tells of a sum, and a sum tells of the bool; where the bool is known, the sum is as the relation or its opposite.
    ("var 1..2: x; var bool: r; constraint int_lin_le_reif([1],[x],3,r); solve satisfy;", Kept, &[&[(1, 2)], &[(1, 1)]]),
    ("var 1..3: x; var bool: r; constraint int_lin_le_reif([1],[x],3,r); solve satisfy;", Kept, &[&[(1, 3)], &[(1, 1)]]),
    ("var 1..4: x; var bool: r; constraint int_lin_le_reif([1],[x],3,r); solve satisfy;", Kept, &[&[(1, 4)], &[(0, 1)]]),
    ("var 3..9: x; var bool: r; constraint int_lin_le_reif([1],[x],3,r); solve satisfy;", Kept, &[&[(3, 9)], &[(0, 1)]]),
    ("var 4..9: x; var bool: r; constraint int_lin_le_reif([1],[x],3,r); solve satisfy;", Kept, &[&[(4, 9)], &[(0, 0)]]),
    ("var -9..4: x; var bool: r; constraint int_lin_le_reif([-2,1],[x,1],-7,r); solve satisfy;", Kept, &[&[(-9, 4)], &[(0, 1)]]),
    ("var 0..9: x; var bool: r; constraint int_lin_le_reif([],[],-1,r); solve satisfy;", Kept, &[&[(0, 9)], &[(0, 0)]]),
    ("var 3..3: x; var bool: r; constraint int_lin_eq_reif([2],[x],6,r); solve satisfy;", Kept, &[&[(3, 3)], &[(1, 1)]]),
    ("var 3..4: x; var bool: r; constraint int_lin_eq_reif([2],[x],6,r); solve satisfy;", Kept, &[&[(3, 4)], &[(0, 1)]]),
    ("var 4..5: x; var bool: r; constraint int_lin_eq_reif([2],[x],6,r); solve satisfy;", Kept, &[&[(4, 5)], &[(0, 0)]]),
    ("var 4..5: x; var bool: r; constraint int_lin_eq_reif([0],[x],0,r); solve satisfy;", Kept, &[&[(4, 5)], &[(0, 1)]]),
    ("var -6..-6: x; var bool: r; constraint int_lin_ne_reif([-1],[x],6,r); solve satisfy;", Kept, &[&[(-6, -6)], &[(0, 0)]]),
    ("var -6..0: x; var bool: r; constraint int_lin_ne_reif([-1],[x],6,r); solve satisfy;", Kept, &[&[(-6, 0)], &[(0, 1)]]),
    ("var -5..0: x; var bool: r; constraint int_lin_ne_reif([-1],[x],6,r); solve satisfy;", Kept, &[&[(-5, 0)], &[(1, 1)]]),
    ("var 0..3: x; var 2..3: y; constraint int_lin_le_reif([1,1],[x,y],3,false); solve satisfy;", Kept, &[&[(1, 3)], &[(2, 3)]]),
    ("var 0..3: x; var 2..3: y; constraint int_lin_le_reif([1,1],[x,y],3,true); solve satisfy;", Kept, &[&[(0, 1)], &[(2, 3)]]),
    ("var 0..3: x; var 2..3: y; var bool: r; constraint int_lin_le_reif([1,1],[x,y],3,r); constraint bool_eq(r,true); solve satisfy;", Kept, &[&[(0, 1)], &[(2, 3)], &[(1, 1)]]),
    ("var 0..1: x; var 0..2: y; var bool: r; constraint int_lin_le_reif([1,1],[x,y],3,r); solve satisfy;", Kept, &[&[(0, 1)], &[(0, 2)], &[(1, 1)]]),
    ("var 0..1: x; var 0..2: y; var bool: r; constraint int_lin_le_reif([1,1],[x,y],3,r); constraint bool_eq(r,false); solve satisfy;", Empty, &[]),
    ("var 0..3: x; var 2..3: y; constraint int_lin_eq_reif([1,1],[x,y],6,true); solve satisfy;", Kept, &[&[(3, 3)], &[(3, 3)]]),
    ("var 3..3: x; var 2..3: y; constraint int_lin_eq_reif([1,1],[x,y],6,false); solve satisfy;", Kept, &[&[(3, 3)], &[(2, 2)]]),
    ("var 0..3: x; var 2..3: y; constraint int_lin_ne_reif([1,1],[x,y],6,false); solve satisfy;", Kept, &[&[(3, 3)], &[(3, 3)]]),
];

#[test]
fn sums_narrow(rt: HostRuntime) -> Result<(), Fail> {
    all_fix(&rt, rt.alloc(), &ROWS)
}
