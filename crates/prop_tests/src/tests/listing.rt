ghost use Rattle.std.specs.Prelude.{◌≡◌, ◌<◌, IsTrue, All, length};
ghost use Rattle.fzn_model.specs.Limits.{IsNear};

use super::{fixed, model_of};
use dom_store::Store;
use fzn_model::{BoxView, Model, cost_of, satisfies};
use prop_engine::Fixed;
use std::alloc::{AllocError, Global};
use std::process::Abort;
use std::test::Fail;

/// How many numbers lie between the bounds of a variable, with both.
fn width(store: &Store, var: u32) -> u64
    requires { var < length store.now.box }
    ensures { 0 < result }
{
    let above = store.high(var).wrapping_sub(store.low(var));
    above.unsigned_abs().saturating_add(1)
}

/// How many assignments lie between the bounds of all variables.
fn count(store: &Store) -> u64 {
    let mut all = 1_u64;
    for var in 0..store.count() {
        all = all.saturating_mul(width(store, var as u32));
    }
    all
}

/// The assignment between the bounds with a number.
fn assignment(alloc: Global, store: &Store, number: u64) -> Result<Vec<i64>, AllocError> {
    let mut rest = number;
    let mut values = Vec::new(alloc);
    for var in 0..store.count() {
        let width = width(store, var as u32);
        let place = (rest % width).min(1_000_000) as i64;
        values.push(store.low(var as u32).wrapping_add(place))?;
        rest /= width;
    }
    Ok(values)
}

fn are_near(values: &[i64]) -> bool
    ensures { IsTrue result → All IsNear values.now }
{
    values.iter().all(|value| value.unsigned_abs() <= 2_000_000)
}

/// Whether the values are a solution that costs less than the bound.
fn is_solution(rt: &impl Abort, model: &Model, values: &[i64], below: i64) -> bool {
    assert!(rt; values.len() == model.doms.as_slice().len());
    assert!(rt; are_near(values));
    satisfies(model, values) && cost_of(model, values) < below
}

/// All solutions between the bounds of a store that cost less than the bound, one after the other.
fn solutions(
    rt: &impl Abort,
    alloc: Global,
    model: &Model,
    store: &Store,
    below: i64,
) -> Result<Vec<i64>, AllocError> {
    let mut found = Vec::new(alloc);
    for number in 0..count(store) {
        let values = assignment(alloc, store, number)?;
        if is_solution(rt, model, values.as_slice(), below) {
            found.extend_from_slice(values.as_slice())?;
        }
    }
    Ok(found)
}

/// Whether each value of some assignments, which stand one after the other, is left.
fn are_left(store: &Store, found: &[i64]) -> bool
    requires { 0 < length store.now.box }
{
    for (place, value) in found.iter().enumerate() {
        if !store.has((place % store.count()) as u32, *value) {
            return false;
        }
    }
    true
}

/// Whether some of the assignments has the value of a variable.
fn is_given(found: &[i64], count: usize, var: usize, value: i64) -> bool
    requires { 0 < count }
{
    for (place, given) in found.iter().enumerate() {
        if place % count == var && *given == value {
            return true;
        }
    }
    false
}

/// Whether each value of a variable is in some of the assignments.
fn is_exact(store: &Store, found: &[i64], var: u32) -> bool
    requires { var < length store.now.box }
{
    for value in store.low(var)..=store.high(var) {
        if store.has(var, value) && !is_given(found, store.count(), var as usize, value) {
            return false;
        }
    }
    true
}

/// Whether that holds for all variables from a place on.
fn are_exact(store: &Store, found: &[i64], from: usize) -> bool {
    for var in from..store.count() {
        if !is_exact(store, found, var as u32) {
            return false;
        }
    }
    true
}

/// Whether no solution is lost, and the only assignment left, if there is but one, is a solution; each value that is left,
/// of a variable from `exact` on, is in one.
fn is_right(store: &Store, found: &[i64], exact: usize) -> bool
    requires { 0 < length store.now.box }
{
    let is_one = store.total() == store.count() as u64;
    are_left(store, found)
        && are_exact(store, found, exact)
        && (!is_one || found.len() == store.count())
}

/// All solutions of a model that cost less than the bound.
fn all_solutions(
    rt: &impl Abort,
    alloc: Global,
    model: &Model,
    below: i64,
) -> Result<Vec<i64>, Fail> {
    let Some(store) = Store::new(alloc, model)? else {
        return Err("a domain is empty")?;
    };
    assert!(rt; count(&store) < 10_000);
    Ok(solutions(rt, alloc, model, &store, below)?)
}

/// Whether fixing a model is right by its solutions.
fn fixes_right(
    rt: &impl Abort,
    alloc: Global,
    model: &Model,
    below: i64,
    exact: usize,
    found: &[i64],
) -> Result<bool, Fail> {
    let (answer, store) = fixed(alloc, model, Some(below))?;
    assert!(rt; store.count() > 0);
    Ok(match answer {
        Fixed::Kept => is_right(&store, found, exact),
        Fixed::Empty => found.is_empty(),
        Fixed::EarlyStop => false,
    })
}

/// Fails where fixing the model of a text is not right by the list of its solutions.
pub(crate) fn lists(
    rt: &impl Abort,
    alloc: Global,
    model: &Model,
    text: &str,
    below: i64,
    exact: usize,
) -> Result<(), Fail> {
    let found = all_solutions(rt, alloc, model, below)?;
    let right = fixes_right(rt, alloc, model, below, exact, found.as_slice())?;
    assert!(rt; right, "{text}");
    Ok(())
}

/// Lists each constraint over each of some boxes, which are exact from a variable on.
fn list_all(
    rt: &impl Abort,
    alloc: Global,
    boxes: &[&str],
    cons: &[&str],
    exact: usize,
) -> Result<(), Fail> {
    for vars in boxes {
        for con in cons {
            let text = format!(in alloc; "{vars} constraint {con}; solve satisfy;")?;
            let model = model_of(alloc, text.as_str())?;
            lists(rt, alloc, &model, text.as_str(), 1, exact)?;
        }
    }
    Ok(())
}

/// Numbers of both signs, and a bool that is open.
#[rattlefmt::skip]
pub(crate) static OPEN: [&str; 5] = [
    "var -3..3: x; var -2..4: y; var bool: r;", "var -3..-1: x; var 0..2: y; var bool: r;", "var 1..2: x; var -3..3: y; var bool: r;",
    "var 2..2: x; var -1..-1: y; var bool: r;", "var -1..3: x; var 3..3: y; var bool: r;",
];

/// Numbers with gaps, and a bool that is fixed.
pub(crate) static GAPS: [&str; 4] = [
    "var 1..2: x; var -3..3: y; var bool: r; constraint bool_eq(r,false);",
    "var -1..3: x; var 3..3: y; var bool: r; constraint bool_eq(r,true);",
    "var {-3,-1,0,2}: x; var {-2,1,3}: y; var bool: r; constraint bool_eq(r,false);",
    "var {-3,-1,0,2}: x; var {-2,1,3}: y; var bool: r; constraint bool_eq(r,true);",
];

/// Relations whose bounds tell all that is so of the bool.
#[rattlefmt::skip]
static TOLD: [&str; 14] = [
    "int_lin_le_reif([2,-1],[x,y],3,r)", "int_lin_le_reif([-1,-1],[x,y],-4,r)", "int_lin_le_reif([3,2],[x,-2],1,r)",
    "int_lin_eq_reif([1,1],[x,y],1,r)", "int_lin_ne_reif([1,-1],[x,y],3,r)", "int_eq_reif(x,y,r)", "int_ne_reif(x,y,r)",
    "int_le_reif(x,y,r)", "int_lt_reif(x,y,r)", "set_in_reif(x,{},r)", "set_in_reif(x,{-3,-2,0,2,3,4,5,6,7,8,9},r)",
    "set_in_reif(x,{-9,-8,1,2},r)", "set_in(x,{-9,2,9})", "set_in_reif(y,{-2,3},r)",
];

#[rattlefmt::skip]
static SUMS: [&str; 17] = [
    "int_lin_le([2,3],[x,y],1)", "int_lin_le([-2,3],[x,y],-4)", "int_lin_le([1,-1],[x,y],-5)", "int_lin_le([3,0],[x,y],4)",
    "int_lin_eq([2,3],[x,y],7)", "int_lin_eq([-3,2],[x,y],11)", "int_lin_eq([2,2],[x,y],3)", "int_lin_ne([1,2],[x,y],4)",
    "int_lin_ne([0,1],[x,y],4)", "int_lin_eq_reif([2,2],[x,y],3,r)", "int_lin_ne_reif([2],[x],3,r)", "int_eq(x,y)", "int_ne(x,y)",
    "int_le(x,y)", "int_lt(x,y)", "int_plus(x,1,y)", "bool2int(r,x)",
];

#[test]
fn numbers(rt: HostRuntime) -> Result<(), Fail> {
    list_all(&rt, rt.alloc(), &OPEN, &TOLD, 2)?;
    list_all(&rt, rt.alloc(), &GAPS, &TOLD, 3)?;
    list_all(&rt, rt.alloc(), &OPEN, &SUMS, 3)?;
    list_all(&rt, rt.alloc(), &GAPS, &SUMS, 3)
}

/// Three bools, open or fixed.
#[rattlefmt::skip]
pub(crate) static BOOLS: [&str; 8] = [
    "var bool: x; var bool: y; var bool: r;",
    "var bool: x; var bool: y; var bool: r; constraint bool_eq(x,false);",
    "var bool: x; var bool: y; var bool: r; constraint bool_eq(x,true); constraint bool_eq(r,false);",
    "var bool: x; var bool: y; var bool: r; constraint bool_eq(y,true); constraint bool_eq(r,true);",
    "var bool: x; var bool: y; var bool: r; constraint bool_eq(y,false);",
    "var bool: x; var bool: y; var bool: r; constraint bool_eq(r,false);",
    "var bool: x; var bool: y; var bool: r; constraint bool_eq(r,true);",
    "var bool: x; var bool: y; var bool: r; constraint bool_eq(x,false); constraint bool_eq(y,true);",
];

/// Clauses in which no bool stands twice, and the like.
#[rattlefmt::skip]
static CLAUSES: [&str; 20] = [
    "bool_clause([x,y],[])", "bool_clause([x],[y])", "bool_clause([y],[x])", "bool_clause([],[y,x])", "bool_clause_reif([x,y],[],r)",
    "bool_clause_reif([x],[y,false],r)", "bool_clause_reif([],[],r)", "array_bool_and([x,y],r)", "array_bool_and([x,true],r)",
    "array_bool_or([x,y],r)", "bool_and(x,y,r)", "bool_or(x,y,r)", "bool_xor(x,y)", "bool_not(x,y)", "bool_le(x,y)", "bool_lt(x,y)",
    "array_bool_element(2,[true,false],r)", "array_var_bool_element(2,[x,y],r)", "bool2int(x,1)", "bool_eq(x,y)",
];

#[rattlefmt::skip]
static TRUTHS: [&str; 6] = [
    "bool_clause_reif([false],[x,x,true],r)", "bool_clause_reif([y],[y],r)", "bool_xor(x,y,r)", "bool_eq_reif(x,y,r)",
    "bool_le_reif(x,y,r)", "bool_lt_reif(x,y,r)",
];

#[test]
fn truths(rt: HostRuntime) -> Result<(), Fail> {
    list_all(&rt, rt.alloc(), &BOOLS, &CLAUSES, 0)?;
    list_all(&rt, rt.alloc(), &BOOLS, &TRUTHS, 3)
}

static SIGNED: [&str; 6] = [
    "var -3..3: x; var -3..3: y; var -3..3: z;",
    "var -2..1: x; var -3..2: y; var 0..3: z;",
    "var 1..3: x; var -2..-1: y; var -3..-1: z;",
    "var -3..-3: x; var 2..2: y; var -3..3: z;",
    "var 2..2: x; var 0..0: y; var 1..3: z;",
    "var {-3,0,2}: x; var {-2,-1,3}: y; var {-3,0,1}: z;",
];

#[rattlefmt::skip]
static ARITHMETIC: [&str; 11] = [
    "int_times(x,y,z)", "int_abs(x,z)", "int_div(x,y,z)", "int_mod(x,y,z)", "int_plus(x,y,z)", "int_max(x,y,z)", "int_min(x,y,z)",
    "array_int_maximum(x,[y,z])", "array_int_minimum(x,[y,z])", "array_int_maximum(x,[y,1,x])", "int_times(x,x,z)",
];

#[test]
fn arithmetic(rt: HostRuntime) -> Result<(), Fail> {
    list_all(&rt, rt.alloc(), &SIGNED, &ARITHMETIC, 3)
}

static SMALL: [&str; 5] = [
    "var -1..4: x; var -1..4: y; var -1..4: z;",
    "var {-1,1,2,3,4}: x; var -1..4: y; var -1..4: z;",
    "var {-1,1,3,4}: x; var 0..4: y; var -1..3: z;",
    "var -1..2: x; var {-1,0,3}: y; var 1..2: z;",
    "var {-1,1,2}: x; var 2..2: y; var {0,1,4}: z;",
];

/// Tables in which no variable stands twice.
#[rattlefmt::skip]
static TABLES: [&str; 8] = [
    "fzn_table_int([y],[3,-1,3,0])", "fzn_table_int([z,x],[1,2,2,3,-1,-1,2,4])", "fzn_table_int([x,y],[9,0,0,-9,3,3])",
    "fzn_table_int([x,y,z],[0,1,2,-1,3,4,2,1,0,4,4,4,0,1,2,1,-1,3])", "fzn_table_int([x,y],[])", "table_int([x,y],[9,0,0,-9])",
    "fzn_table_int([2,x],[2,1,1,2,2,4])", "fzn_table_int([2,2],[2,1,1,2,2,4])",
];

#[rattlefmt::skip]
static LISTS: [&str; 14] = [
    "array_int_element(x,[1,4,9],y)", "array_var_int_element(x,[z,9,0],y)", "array_var_int_element(x,[z,z,y],y)",
    "array_var_int_element(x,[y,x,z],y)", "array_var_int_element(x,[8,x,7],y)", "fzn_all_different_int([x,y,z,77])",
    "fzn_all_different_int([x,y,z,1,-1])", "fzn_all_different_int([z,0,x,77])", "fzn_all_different_int([x,0,y,z,1])",
    "fzn_all_different_int([y,x,y])", "all_different_int([77,4,y,1,2,0])", "fzn_table_int([x,x],[1,2,3,3,0,4])",
    "fzn_table_int([x,y,x],[1,2,2,3,0,3,2,1,1])", "fzn_table_int([x,x],[1,2,2,3])",
];

#[test]
fn members(rt: HostRuntime) -> Result<(), Fail> {
    list_all(&rt, rt.alloc(), &SMALL, &TABLES, 0)?;
    list_all(&rt, rt.alloc(), &SMALL, &LISTS, 3)
}

static STARTS: [&str; 4] = [
    "var -2..4: x; var 0..6: y; var -1..3: z;",
    "var {-2,0,1,3}: x; var {0,2,3}: y; var 0..2: z;",
    "var 0..0: x; var 0..2: y; var 0..4: z;",
    "var 0..3: x; var -2..2: y; var -1..3: z;",
];

#[rattlefmt::skip]
static TASKS: [&str; 16] = [
    "fzn_cumulative([0,x],[3,2],[1,2],2)", "fzn_cumulative([0,0,x],[2,4,2],[1,1,2],2)", "fzn_cumulative([x,y],[3,3],[1,1],1)",
    "fzn_cumulative([x,y,z],[2,2,2],[1,1,1],1)", "fzn_cumulative([x,y,z],[2,2,2],[1,1,1],2)", "fzn_cumulative([x,-2],[1,4],[1,2],2)",
    "fzn_cumulative([x,0,2],[2,3,3],[1,1,1],2)", "fzn_cumulative([x,-2,3],[3,2,3],[1,1,1],1)", "fzn_cumulative([x,2],[2,0],[1,9],1)",
    "fzn_cumulative([x,y,0],[0,2,3],[2,0,1],1)", "fzn_cumulative([x],[y],[z],2)", "fzn_cumulative([x,0],[2,2],[2,1],y)",
    "fzn_cumulative([x,0],[2,2],[y,2],2)", "fzn_cumulative([x,3],[y,2],[1,1],1)", "fzn_cumulative([x],[x],[x],x)", "cumulative([],[],[],x)",
];

#[test]
fn tasks(rt: HostRuntime) -> Result<(), Fail> {
    list_all(&rt, rt.alloc(), &STARTS, &TASKS, 3)
}

/// Models with a goal, for each bound from -12 to 12.
#[rattlefmt::skip]
static GOALS: [&str; 3] = [
    "var {0,2,3,5}: x; var -1..4: y; var 0..9: z; constraint int_plus(x,y,z); constraint int_lin_ne([1,1],[x,y],3); solve minimize z;",
    "var 0..1: a; var 0..1: b; var 0..1: c; var 0..12: z; constraint int_lin_le([2,3,4],[a,b,c],5); constraint int_lin_eq([3,4,5,-1],[a,b,c,z],0); solve maximize z;",
    "var 0..4: x; var 0..4: y; var 0..6: z; constraint fzn_cumulative([x,y,1],[2,3,2],[1,1,1],2); constraint int_lin_le([1,-1],[x,z],-2); constraint int_lin_le([1,-1],[y,z],-3); solve minimize z;",
];

#[test]
fn bounds(rt: HostRuntime) -> Result<(), Fail> {
    for text in &GOALS {
        let model = model_of(rt.alloc(), text)?;
        for below in -12..13 {
            lists(&rt, rt.alloc(), &model, text, below, 4)?;
        }
    }
    Ok(())
}
