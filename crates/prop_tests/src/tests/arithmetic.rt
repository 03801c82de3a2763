//! Products, absolute values, divisions, extremes, and members at an index.

use super::{Row, all_fix};
use prop_engine::Fixed::{Empty, Kept};
use std::test::Fail;

#[rattlefmt::skip]
static ROWS: [Row; 54] = [
    // Factors of each sign, fixed ones and constants; a product that no factors have.
    ("var 2..3: x; var -1..4: y; var -100..100: z; constraint int_times(x,y,z); solve satisfy;", Kept, &[&[(2, 3)], &[(-1, 4)], &[(-3, 12)]]),
    ("var -3..2: x; var -5..4: y; var -100..100: z; constraint int_times(x,y,z); solve satisfy;", Kept, &[&[(-3, 2)], &[(-5, 4)], &[(-12, 15)]]),
    ("var -3..-2: x; var -5..-4: y; var -100..100: z; constraint int_times(x,y,z); solve satisfy;", Kept, &[&[(-3, -2)], &[(-5, -4)], &[(8, 15)]]),
    ("var -3..-3: x; var 5..5: y; var -100..100: z; constraint int_times(x,y,z); solve satisfy;", Kept, &[&[(-3, -3)], &[(5, 5)], &[(-15, -15)]]),
    ("var 2..3: x; var -99..99: y; constraint int_times(-4,x,y); solve satisfy;", Kept, &[&[(2, 3)], &[(-12, -8)]]),
    ("var 2..3: x; var -99..99: y; constraint int_times(x,-4,y); solve satisfy;", Kept, &[&[(2, 3)], &[(-12, -8)]]),
    ("var 2..3: x; var 1..4: y; constraint int_times(x,y,6); solve satisfy;", Kept, &[&[(2, 3)], &[(1, 4)]]),
    ("var 2..3: x; var 2..3: y; var -5..3: z; constraint int_times(x,y,z); solve satisfy;", Empty, &[]),
    ("var 2..3: x; var 1..4: y; constraint int_times(x,y,13); solve satisfy;", Empty, &[]),
    ("constraint int_times(2,3,5); solve satisfy;", Empty, &[]),
    // The absolute value.
    ("var -3..2: x; var 0..9: y; constraint int_abs(x,y); solve satisfy;", Kept, &[&[(-3, 2)], &[(0, 3)]]),
    ("var -5..-2: x; var -9..9: y; constraint int_abs(x,y); solve satisfy;", Kept, &[&[(-5, -2)], &[(2, 5)]]),
    ("var 2..4: x; var 3..9: y; constraint int_abs(x,y); solve satisfy;", Kept, &[&[(2, 4)], &[(3, 4)]]),
    ("var 0..9: x; constraint int_abs(-7,x); solve satisfy;", Kept, &[&[(7, 7)]]),
    ("var -3..2: x; constraint int_abs(x,2); solve satisfy;", Kept, &[&[(-3, 2)]]),
    ("var -3..2: x; var 4..9: y; constraint int_abs(x,y); solve satisfy;", Empty, &[]),
    ("var -3..2: x; constraint int_abs(x,-1); solve satisfy;", Empty, &[]),
    // Quotients and remainders towards 0, and by 0.
    ("var 7..7: x; var -2..-2: y; var -10..10: z; constraint int_div(x,y,z); solve satisfy;", Kept, &[&[(7, 7)], &[(-2, -2)], &[(-3, -3)]]),
    ("var 7..8: x; var 2..2: y; var -10..10: z; constraint int_div(x,y,z); solve satisfy;", Kept, &[&[(7, 8)], &[(2, 2)], &[(-10, 10)]]),
    ("var 0..9: x; constraint int_div(-7,-2,x); solve satisfy;", Kept, &[&[(3, 3)]]),
    ("var -7..-7: x; var 2..2: y; var -10..10: z; constraint int_mod(x,y,z); solve satisfy;", Kept, &[&[(-7, -7)], &[(2, 2)], &[(-1, -1)]]),
    ("var 7..7: x; var 2..3: y; var -10..10: z; constraint int_mod(x,y,z); solve satisfy;", Kept, &[&[(7, 7)], &[(2, 3)], &[(-10, 10)]]),
    ("var -9..9: x; constraint int_mod(7,-2,x); solve satisfy;", Kept, &[&[(1, 1)]]),
    ("var 7..7: x; var 0..0: y; var -10..10: z; constraint int_div(x,y,z); solve satisfy;", Empty, &[]),
    ("var 7..7: x; var -2..-2: y; var -10..-4: z; constraint int_div(x,y,z); solve satisfy;", Empty, &[]),
    ("var 7..7: x; var 0..0: y; var -10..10: z; constraint int_mod(x,y,z); solve satisfy;", Empty, &[]),
    ("var 7..7: x; var 2..2: y; constraint int_mod(x,0,0); solve satisfy;", Empty, &[]),
    // The greatest and the least of some terms.
    ("var 0..9: x; var 1..4: y; var 2..3: z; constraint array_int_maximum(x,[y,z]); solve satisfy;", Kept, &[&[(2, 4)], &[(1, 4)], &[(2, 3)]]),
    ("var 0..3: x; var 1..4: y; var 2..3: z; constraint array_int_maximum(x,[y,z]); solve satisfy;", Kept, &[&[(2, 3)], &[(1, 3)], &[(2, 3)]]),
    ("var 0..3: x; var 1..4: y; var 2..5: z; constraint array_int_maximum(x,[y,z]); solve satisfy;", Kept, &[&[(2, 3)], &[(1, 3)], &[(2, 3)]]),
    ("var 0..9: x; var 1..8: y; constraint array_int_maximum(x,[5,y]); solve satisfy;", Kept, &[&[(5, 8)], &[(1, 8)]]),
    ("var 0..9: x; var 1..2: y; constraint array_int_maximum(3,[x,y]); solve satisfy;", Kept, &[&[(0, 3)], &[(1, 2)]]),
    ("var 0..9: x; var 1..4: y; var 2..3: z; constraint array_int_minimum(x,[y,z]); solve satisfy;", Kept, &[&[(1, 3)], &[(1, 4)], &[(2, 3)]]),
    ("var 2..9: x; var 1..4: y; var 2..3: z; constraint array_int_minimum(x,[y,z]); solve satisfy;", Kept, &[&[(2, 3)], &[(2, 4)], &[(2, 3)]]),
    ("var 3..9: x; var 1..4: y; var 2..4: z; constraint array_int_minimum(x,[y,z]); solve satisfy;", Kept, &[&[(3, 4)], &[(3, 4)], &[(3, 4)]]),
    ("var 0..9: x; var 2..8: y; constraint array_int_minimum(x,[5,y]); solve satisfy;", Kept, &[&[(2, 5)], &[(2, 8)]]),
    ("var 0..9: x; var 4..5: y; constraint array_int_minimum(3,[x,y]); solve satisfy;", Kept, &[&[(3, 9)], &[(4, 5)]]),
    ("var 0..1: x; var 1..4: y; var 2..3: z; constraint array_int_maximum(x,[y,z]); solve satisfy;", Empty, &[]),
    ("var 5..9: x; var 1..4: y; constraint array_int_maximum(x,[y,y]); solve satisfy;", Empty, &[]),
    ("var 4..9: x; var 1..4: y; var 2..3: z; constraint array_int_minimum(x,[y,z]); solve satisfy;", Empty, &[]),
    ("var 0..0: x; var 1..4: y; constraint array_int_minimum(x,[y,y]); solve satisfy;", Empty, &[]),
    // Members that are constants, variables, the index and the result; an index that is fixed, wide, or of no member.
    ("var 0..4: x; var 6..8: y; constraint array_var_int_element(x,[5,7,9],y); solve satisfy;", Kept, &[&[(2, 2)], &[(7, 7)]]),
    ("var 1..3: x; var 0..10: y; constraint array_var_int_element(x,[5,7,9],y); solve satisfy;", Kept, &[&[(1, 3)], &[(5, 9)]]),
    ("var 0..5000: x; var 6..20: y; constraint array_var_int_element(x,[9,5,7],y); solve satisfy;", Kept, &[&[(1, 1), (3, 3)], &[(7, 9)]]),
    ("var 0..9: x; var 0..20: y; var 2..12: z; constraint array_var_int_element(x,[5,z,9],y); solve satisfy;", Kept, &[&[(1, 3)], &[(2, 12)], &[(2, 12)]]),
    ("var 2..2: x; var 0..10: y; var 2..12: z; constraint array_var_int_element(x,[5,z,9],y); solve satisfy;", Kept, &[&[(2, 2)], &[(2, 10)], &[(2, 10)]]),
    ("var 4..20: y; var 2..12: z; constraint array_var_int_element(2,[5,z,9],y); solve satisfy;", Kept, &[&[(4, 12)], &[(4, 12)]]),
    ("var -3..8: x; constraint array_var_int_element(x,[5,7,9],9); solve satisfy;", Kept, &[&[(3, 3)]]),
    ("var 0..9: x; constraint array_var_int_element(x,[x,x,x],x); solve satisfy;", Kept, &[&[(1, 3)]]),
    ("var 0..4: x; var 10..20: y; constraint array_var_int_element(x,[5,7,9],y); solve satisfy;", Empty, &[]),
    ("var 0..4: x; var 10..20: y; constraint array_var_int_element(x,[],y); solve satisfy;", Empty, &[]),
    ("var 4..5000: x; var 0..20: y; constraint array_var_int_element(x,[5,7,9],y); solve satisfy;", Empty, &[]),
    ("var 0..20: y; constraint array_var_int_element(0,[5,7,9],y); solve satisfy;", Empty, &[]),
    ("var 0..20: y; constraint array_var_int_element(4,[5,7,9],y); solve satisfy;", Empty, &[]),
];

#[test]
fn results_narrow(rt: HostRuntime) -> Result<(), Fail> {
    all_fix(&rt, rt.alloc(), &ROWS)
}
