//! Values that differ, tasks with a capacity, and tables.

use super::{Row, all_fix};
use prop_engine::Fixed::{Empty, Kept};
use std::test::Fail;

/// Intervals that are filled, members that are fixed, wide domains, and too many members.
#[rattlefmt::skip]
static DIFFERENT: [Row; 20] = [
    ("var 1..2: x; var 1..2: y; var 1..3: z; constraint fzn_all_different_int([x,y,z,77,0]); solve satisfy;", Kept, &[&[(1, 2)], &[(1, 2)], &[(3, 3)]]),
    ("var 2..3: x; var 2..3: y; var 1..3: z; constraint fzn_all_different_int([x,y,z,77,0]); solve satisfy;", Kept, &[&[(2, 3)], &[(2, 3)], &[(1, 1)]]),
    ("var 1..3: x; var 1..3: y; var 1..3: z; constraint fzn_all_different_int([x,y,z,77,0]); solve satisfy;", Kept, &[&[(1, 3)], &[(1, 3)], &[(1, 3)]]),
    ("var 1..3: x; var 1..2: y; var 1..1: z; constraint fzn_all_different_int([x,y,z,77,0]); solve satisfy;", Kept, &[&[(3, 3)], &[(2, 2)], &[(1, 1)]]),
    ("var -3..-1: x; var -2..-1: y; var -1..-1: z; constraint fzn_all_different_int([x,y,z,77,0]); solve satisfy;", Kept, &[&[(-3, -3)], &[(-2, -2)], &[(-1, -1)]]),
    ("var 3..4: x; var 3..9: z; constraint fzn_all_different_int([x,4,z,77,0]); solve satisfy;", Kept, &[&[(3, 3)], &[(5, 9)]]),
    ("var 1..3: x; var 1..3: y; var 1..4: z; constraint fzn_all_different_int([x,y,z,77,2]); solve satisfy;", Kept, &[&[(1, 3)], &[(1, 3)], &[(4, 4)]]),
    ("var 1..4: x; var 3..4: y; var 1..6: z; constraint fzn_all_different_int([x,y,z,1,6,2]); solve satisfy;", Kept, &[&[(3, 4)], &[(3, 4)], &[(5, 5)]]),
    ("var 1..1: x; var 0..0: y; var 2..2: z; constraint fzn_all_different_int([x,y,z,77,3,-1]); solve satisfy;", Kept, &[&[(1, 1)], &[(0, 0)], &[(2, 2)]]),
    ("var -5000..-3: x; var 0..1: y; var 0..1: z; constraint fzn_all_different_int([x,y,z,77,2,-3]); solve satisfy;", Kept, &[&[(-5000, -4)], &[(0, 1)], &[(0, 1)]]),
    ("var 0..5000: x; var 0..1: y; var 0..1: z; constraint fzn_all_different_int([x,y,z,77,2,3]); solve satisfy;", Kept, &[&[(4, 5000)], &[(0, 1)], &[(0, 1)]]),
    ("var 0..5000: x; var 10..5000: y; var 5000..5000: z; constraint fzn_all_different_int([x,y,z,77,9,10]); solve satisfy;", Kept, &[&[(0, 4999)], &[(11, 4999)], &[(5000, 5000)]]),
    ("var 1..2: x; var 1..2: y; var 1..2: z; constraint fzn_all_different_int([x,y,z]); solve satisfy;", Empty, &[]),
    ("var 1..3: x; var 1..3: y; var 1..3: z; constraint fzn_all_different_int([x,y,z,77,2]); solve satisfy;", Empty, &[]),
    ("var 2..3: x; constraint fzn_all_different_int([x,77,1,4,2,3]); solve satisfy;", Empty, &[]),
    ("var 1..2: x; constraint fzn_all_different_int([x,x,x,77,0]); solve satisfy;", Empty, &[]),
    ("var 5..5: x; var 0..9: y; constraint fzn_all_different_int([x,y,x,77,0]); solve satisfy;", Empty, &[]),
    ("var 1..3: x; var 1..3: y; var 1..3: z; constraint fzn_all_different_int([x,y,z,77,77,0]); solve satisfy;", Empty, &[]),
    ("var -5000..0: x; var 0..0: y; var 5..5: z; constraint fzn_all_different_int([x,y,z,77,5,0]); solve satisfy;", Empty, &[]),
    ("var 1..2: x; var 1..2: y; var 1..2: z; constraint fzn_all_different_int([]); solve satisfy;", Kept, &[&[(1, 2)], &[(1, 2)], &[(1, 2)]]),
];

#[test]
fn differing_values_narrow(rt: HostRuntime) -> Result<(), Fail> {
    all_fix(&rt, rt.alloc(), &DIFFERENT)
}

/// Tasks that wait for fixed ones or end before them; lengths, uses and capacities that are variables or 0; gaps and wide starts.
#[rattlefmt::skip]
static CUMULATIVE: [Row; 39] = [
    ("var 0..4: x; constraint fzn_cumulative([0,x,77],[3,2,0],[1,2,0],2); solve satisfy;", Kept, &[&[(3, 4)]]),
    ("var 0..6: x; constraint fzn_cumulative([0,0,x],[2,4,2],[1,1,2],2); solve satisfy;", Kept, &[&[(4, 6)]]),
    ("var 0..5: x; constraint fzn_cumulative([0,2,x],[2,2,1],[1,1,1],1); solve satisfy;", Kept, &[&[(4, 5)]]),
    ("var -2..3: x; constraint fzn_cumulative([-2,x],[3,2],[1,1],1); solve satisfy;", Kept, &[&[(1, 3)]]),
    ("var 0..4: x; constraint fzn_cumulative([3,x],[2,2],[1,1],1); solve satisfy;", Kept, &[&[(0, 1)]]),
    ("var 0..1: x; var 0..6: y; constraint fzn_cumulative([x,y],[3,3],[1,1],1); solve satisfy;", Kept, &[&[(0, 1)], &[(3, 6)]]),
    ("var 0..0: x; var 0..2: y; var 0..4: z; constraint fzn_cumulative([x,y,z],[2,2,2],[1,1,1],1); solve satisfy;", Kept, &[&[(0, 0)], &[(2, 2)], &[(4, 4)]]),
    ("var 0..0: x; var 1..1: y; var 2..2: z; constraint fzn_cumulative([x,y,z],[2,2,2],[1,1,1],2); solve satisfy;", Kept, &[&[(0, 0)], &[(1, 1)], &[(2, 2)]]),
    ("var -2..4: x; constraint fzn_cumulative([x,-2],[1,4],[1,2],2); solve satisfy;", Kept, &[&[(2, 4)]]),
    ("var 0..5: x; constraint fzn_cumulative([x,0,2],[1,2,2],[1,1,1],1); solve satisfy;", Kept, &[&[(4, 5)]]),
    ("var 0..5: x; constraint fzn_cumulative([x,0,2],[2,2,2],[1,1,1],2); solve satisfy;", Kept, &[&[(0, 5)]]),
    ("var 1..5: x; constraint fzn_cumulative([x,0,2],[2,3,3],[1,1,1],2); solve satisfy;", Kept, &[&[(3, 5)]]),
    ("var -2..2: x; constraint fzn_cumulative([x,0,2],[2,3,3],[1,1,1],2); solve satisfy;", Kept, &[&[(-2, 0)]]),
    ("var -2..6: x; constraint fzn_cumulative([x,-2,3],[3,2,3],[1,1,1],1); solve satisfy;", Kept, &[&[(0, 6)]]),
    ("var 0..4: x; constraint fzn_cumulative([x,2],[2,0],[1,9],1); solve satisfy;", Kept, &[&[(0, 4)]]),
    ("var -2..4: x; var -2..4: y; constraint fzn_cumulative([x,y,0],[0,2,3],[2,0,1],1); solve satisfy;", Kept, &[&[(-2, 4)], &[(-2, 4)]]),
    ("var 0..3: x; var -2..2: y; var -1..3: z; constraint fzn_cumulative([x],[y],[z],2); solve satisfy;", Kept, &[&[(0, 3)], &[(0, 2)], &[(0, 3)]]),
    ("var 0..3: x; var -2..3: y; constraint fzn_cumulative([x],[2],[1],y); solve satisfy;", Kept, &[&[(0, 3)], &[(0, 3)]]),
    ("var 0..4: x; var -1..2: y; constraint fzn_cumulative([x,0],[2,2],[2,1],y); solve satisfy;", Kept, &[&[(2, 4)], &[(0, 2)]]),
    ("var 0..3: x; var 1..2: y; constraint fzn_cumulative([x,0],[2,2],[y,2],2); solve satisfy;", Kept, &[&[(2, 3)], &[(1, 2)]]),
    ("var 2..6: x; var 2..3: y; constraint fzn_cumulative([x,3],[y,2],[1,1],1); solve satisfy;", Kept, &[&[(5, 6)], &[(2, 3)]]),
    ("var 0..2: x; var -2..0: y; var -2..0: z; constraint fzn_cumulative([x,x,-2],[y,1,8],[1,z,1],1); solve satisfy;", Kept, &[&[(0, 2)], &[(0, 0)], &[(0, 0)]]),
    ("var -2..3: x; constraint fzn_cumulative([x],[x],[x],x); solve satisfy;", Kept, &[&[(0, 3)]]),
    ("constraint fzn_cumulative([77],[0],[0],-1); solve satisfy;", Empty, &[]),
    ("var 0..3: x; var -2..-1: y; constraint fzn_cumulative([x],[0],[0],y); solve satisfy;", Empty, &[]),
    ("constraint fzn_cumulative([0,1],[2,2],[1,1],1); solve satisfy;", Empty, &[]),
    ("var 1..1: x; var 0..0: y; constraint fzn_cumulative([x,y],[2,2],[1,1],1); solve satisfy;", Empty, &[]),
    ("var 0..1: x; constraint fzn_cumulative([0,2],[3,2],[1,1],x); solve satisfy;", Empty, &[]),
    ("var 0..6: x; constraint fzn_cumulative([-1000000],[1000000],[1000000],x); solve satisfy;", Empty, &[]),
    ("var 0..3: x; var -2..-1: y; constraint fzn_cumulative([x],[y],[1],2); solve satisfy;", Empty, &[]),
    ("var 0..3: x; constraint fzn_cumulative([x],[1],[-1],2); solve satisfy;", Empty, &[]),
    ("var 0..2: x; constraint fzn_cumulative([x],[1],[2],1); solve satisfy;", Empty, &[]),
    ("var -1..2: x; constraint fzn_cumulative([x,-1],[1,4],[1,1],1); solve satisfy;", Empty, &[]),
    ("var 0..2: x; var 0..2: y; constraint fzn_cumulative([x,y],[3,3],[1,1],1); solve satisfy;", Empty, &[]),
    ("var 0..2: x; constraint fzn_cumulative([],[],[],x); solve satisfy;", Kept, &[&[(0, 2)]]),
    ("var {0,1,3,4,5,6}: x; constraint fzn_cumulative([x,1],[2,2],[1,1],1); solve satisfy;", Kept, &[&[(3, 6)]]),
    ("var {0,1,2,4,5,6}: x; constraint fzn_cumulative([x,1],[2,2],[1,1],1); solve satisfy;", Kept, &[&[(4, 6)]]),
    ("var 0..5000: x; constraint fzn_cumulative([x,0,4990],[2,3,11],[1,1,1],1); solve satisfy;", Kept, &[&[(3, 4988)]]),
    ("var -5000..5: x; constraint fzn_cumulative([x,0,4990],[2,3,11],[1,1,1],1); solve satisfy;", Kept, &[&[(-5000, 5)]]),
];

#[test]
fn tasks_narrow(rt: HostRuntime) -> Result<(), Fail> {
    all_fix(&rt, rt.alloc(), &CUMULATIVE)
}

/// Rows that are left, with gaps, twice, of no value; wide columns, constants, and a variable in two columns.
#[rattlefmt::skip]
static TABLES: [Row; 22] = [
    ("var 1..3: x; var 1..9: y; constraint fzn_table_int([x,y],[1,2,2,3]); solve satisfy;", Kept, &[&[(1, 2)], &[(2, 3)]]),
    ("var 2..3: x; var 1..9: y; constraint fzn_table_int([x,y],[1,2,2,3]); solve satisfy;", Kept, &[&[(2, 2)], &[(3, 3)]]),
    ("var 1..3: x; var 9..9: y; constraint fzn_table_int([x,y],[1,2,2,3]); solve satisfy;", Empty, &[]),
    ("var 0..5000: x; var 0..9: y; constraint fzn_table_int([x,y],[200,2,4000,3,100,1,9000,4,-7,5]); solve satisfy;", Kept, &[&[(100, 4000)], &[(1, 3)]]),
    ("var 150..3000: x; var 0..9: y; constraint fzn_table_int([x,y],[200,2,4000,3,100,1,9000,4,-7,5]); solve satisfy;", Kept, &[&[(200, 200)], &[(2, 2)]]),
    ("var 0..200000: x; var 0..0: y; constraint fzn_table_int([x,y],[5,0,1029,0]); solve satisfy;", Kept, &[&[(5, 1029)], &[(0, 0)]]),
    ("var 0..200000: x; var 0..0: y; constraint fzn_table_int([x,y],[5,0,1028,0]); solve satisfy;", Kept, &[&[(5, 5), (1028, 1028)], &[(0, 0)]]),
    ("var -1..4: y; constraint fzn_table_int([y],[3,-1,3,0]); solve satisfy;", Kept, &[&[(-1, 0), (3, 3)]]),
    ("var -1..4: x; var -1..4: z; constraint fzn_table_int([z,x],[1,2,2,3,-1,-1,2,4]); solve satisfy;", Kept, &[&[(-1, -1), (2, 4)], &[(-1, -1), (1, 2)]]),
    ("var -1..4: x; var -1..4: y; var -1..4: z; constraint fzn_table_int([x,y,z],[0,1,2,-1,3,4,2,1,0,4,4,4,0,1,2,1,-1,3]); solve satisfy;", Kept, &[&[(-1, 2), (4, 4)], &[(-1, -1), (1, 1), (3, 4)], &[(0, 0), (2, 4)]]),
    ("var {-1,1,2,3,4}: x; var -1..4: y; var -1..4: z; constraint fzn_table_int([x,y,z],[0,1,2,-1,3,4,2,1,0,4,4,4,0,1,2,1,-1,3]); solve satisfy;", Kept, &[&[(-1, -1), (1, 2), (4, 4)], &[(-1, -1), (1, 1), (3, 4)], &[(0, 0), (3, 4)]]),
    ("var {-1,1,2,3,4}: x; var 0..4: y; var -1..3: z; constraint fzn_table_int([x,y,z],[0,1,2,-1,3,4,2,1,0,4,4,4,0,1,2,1,-1,3]); solve satisfy;", Kept, &[&[(2, 2)], &[(1, 1)], &[(0, 0)]]),
    ("var {-1,1,3,4}: x; var 0..4: y; var -1..3: z; constraint fzn_table_int([x,y,z],[0,1,2,-1,3,4,2,1,0,4,4,4,0,1,2,1,-1,3]); solve satisfy;", Empty, &[]),
    ("var -1..4: x; var -1..4: y; constraint fzn_table_int([x,y],[]); solve satisfy;", Empty, &[]),
    ("var -1..4: x; var -1..4: y; constraint fzn_table_int([x,y],[9,0,0,-9]); solve satisfy;", Empty, &[]),
    ("var -1..4: x; var -1..4: y; constraint fzn_table_int([x,y],[9,0,0,-9,3,3]); solve satisfy;", Kept, &[&[(3, 3)], &[(3, 3)]]),
    ("var -1..4: x; constraint fzn_table_int([2,x],[2,1,1,2,2,4]); solve satisfy;", Kept, &[&[(1, 1), (4, 4)]]),
    ("constraint fzn_table_int([2,2],[2,1,1,2,2,4]); solve satisfy;", Empty, &[]),
    ("var -1..4: x; constraint fzn_table_int([2],[2,1,1,2,2,4]); solve satisfy;", Kept, &[&[(-1, 4)]]),
    ("var -1..4: x; constraint fzn_table_int([x,x],[1,2,3,3,0,4]); solve satisfy;", Kept, &[&[(3, 3)]]),
    ("var -1..4: x; var -1..4: y; constraint fzn_table_int([x,y,x],[1,2,2,3,0,3,2,1,1]); solve satisfy;", Kept, &[&[(1, 3)], &[(0, 2)]]),
    ("var -1..4: x; constraint fzn_table_int([x,x],[1,2,2,3]); solve satisfy;", Empty, &[]),
];

#[test]
fn tables_narrow(rt: HostRuntime) -> Result<(), Fail> {
    all_fix(&rt, rt.alloc(), &TABLES)
}
