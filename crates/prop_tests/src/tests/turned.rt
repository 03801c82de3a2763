//! Reified bases that hold exactly where a bool is false. A file states few of them, so here each reified constraint of a
//! file gets its flag turned.

ghost use Rattle.std.specs.Prelude.{◌≡◌, ◌+◌, All, IfOk, OnOk, length};
ghost use Rattle.fzn_model.specs.Limits.{ConInLimits, ConTruths, of_model};

use super::listing::{BOOLS, GAPS, OPEN, lists};
use super::{Row, fixes, model_of};
use fzn_model::{Con, List, Model, Runs};
use prop_engine::Fixed::{Empty, Kept};
use std::alloc::Global;
use std::process::Abort;
use std::test::Fail;

/// The constraint with its flag turned, or the same one where it is a base.
fn turned(alloc: Global, domains: &[Runs], con: &Con) -> Result<Con, Fail>
    requires kept { ConInLimits of_model (length domains.now) con.now }
    requires truths { ConTruths domains.now con.now }
    ensures kept { IfOk result (ConInLimits of_model (length domains.now)) }
    ensures truths { IfOk result (ConTruths domains.now) }
{
    match con {
        Con::Base(base) => Ok(Con::Base(base.copy(alloc)?)),
        Con::Reif(base, term, flag) => Ok(Con::Reif(base.copy(alloc)?, *term, !*flag)),
        _ => Err("neither a base nor a reified one")?,
    }
}

/// Adds the turned constraint.
fn add_turned(alloc: Global, domains: &[Runs], con: &Con, all: &mut List<Con>) -> Result<(), Fail>
    requires con_kept { ConInLimits of_model (length domains.now) con.now }
    requires con_truths { ConTruths domains.now con.now }
    requires kept { All (ConInLimits of_model (length domains.now)) all.old }
    requires truths { All (ConTruths domains.now) all.old }
    ensures count { OnOk result (length all.new ≡ length all.old + 1) }
    ensures kept { OnOk result (All (ConInLimits of_model (length domains.now)) all.new) }
    ensures truths { OnOk result (All (ConTruths domains.now) all.new) }
{
    let con = turned(alloc, domains, con)?;
    all.push(con)?;
    Ok(())
}

fn all_turned(alloc: Global, domains: &[Runs], cons: &[Con]) -> Result<List<Con>, Fail>
    requires kept { All (ConInLimits of_model (length domains.now)) cons.now }
    requires truths { All (ConTruths domains.now) cons.now }
    ensures count { IfOk result (λ all. length all ≡ length cons.now) }
    ensures kept { IfOk result (All (ConInLimits of_model (length domains.now))) }
    ensures truths { IfOk result (All (ConTruths domains.now)) }
{
    let mut all = List::new(alloc);
    for con in cons {
        add_turned(alloc, domains, con, &mut all)?;
    }
    Ok(all)
}

/// The model of a text, with the flags turned, without outputs and search annotations.
fn turned_model(alloc: Global, text: &str) -> Result<Model, Fail> {
    let model = model_of(alloc, text)?;
    let cons = all_turned(alloc, model.doms.as_slice(), model.cons.as_slice())?;
    let Model {
        doms,
        cons: _,
        goal,
        outs: _,
        order: _,
    } = model;
    Ok(Model {
        doms,
        cons,
        goal,
        outs: List::new(alloc),
        order: List::new(alloc),
    })
}

#[rattlefmt::skip]
static ROWS: [Row; 41] = [
    // A sum tells of the bool; where the bool is known, the sum is as the relation or its opposite.
    ("var 1..2: x; var bool: r; constraint int_lin_le_reif([1],[x],3,r); solve satisfy;", Kept, &[&[(1, 2)], &[(0, 0)]]),
    ("var 1..3: x; var bool: r; constraint int_lin_le_reif([1],[x],3,r); solve satisfy;", Kept, &[&[(1, 3)], &[(0, 0)]]),
    ("var 1..4: x; var bool: r; constraint int_lin_le_reif([1],[x],3,r); solve satisfy;", Kept, &[&[(1, 4)], &[(0, 1)]]),
    ("var 3..9: x; var bool: r; constraint int_lin_le_reif([1],[x],3,r); solve satisfy;", Kept, &[&[(3, 9)], &[(0, 1)]]),
    ("var 4..9: x; var bool: r; constraint int_lin_le_reif([1],[x],3,r); solve satisfy;", Kept, &[&[(4, 9)], &[(1, 1)]]),
    ("var -9..4: x; var bool: r; constraint int_lin_le_reif([-2,1],[x,1],-7,r); solve satisfy;", Kept, &[&[(-9, 4)], &[(0, 1)]]),
    ("var bool: r; constraint int_lin_le_reif([],[],-1,r); solve satisfy;", Kept, &[&[(1, 1)]]),
    ("var 3..3: x; var bool: r; constraint int_lin_eq_reif([2],[x],6,r); solve satisfy;", Kept, &[&[(3, 3)], &[(0, 0)]]),
    ("var 3..4: x; var bool: r; constraint int_lin_eq_reif([2],[x],6,r); solve satisfy;", Kept, &[&[(3, 4)], &[(0, 1)]]),
    ("var 4..5: x; var bool: r; constraint int_lin_eq_reif([2],[x],6,r); solve satisfy;", Kept, &[&[(4, 5)], &[(1, 1)]]),
    ("var 4..5: x; var bool: r; constraint int_lin_eq_reif([0],[x],0,r); solve satisfy;", Kept, &[&[(4, 5)], &[(0, 1)]]),
    ("var -6..-6: x; var bool: r; constraint int_lin_ne_reif([-1],[x],6,r); solve satisfy;", Kept, &[&[(-6, -6)], &[(1, 1)]]),
    ("var -6..0: x; var bool: r; constraint int_lin_ne_reif([-1],[x],6,r); solve satisfy;", Kept, &[&[(-6, 0)], &[(0, 1)]]),
    ("var -5..0: x; var bool: r; constraint int_lin_ne_reif([-1],[x],6,r); solve satisfy;", Kept, &[&[(-5, 0)], &[(0, 0)]]),
    ("var 0..3: x; var 2..3: y; constraint int_lin_le_reif([1,1],[x,y],3,true); solve satisfy;", Kept, &[&[(1, 3)], &[(2, 3)]]),
    ("var 0..3: x; var 2..3: y; constraint int_lin_le_reif([1,1],[x,y],3,false); solve satisfy;", Kept, &[&[(0, 1)], &[(2, 3)]]),
    ("var 0..1: x; var 0..2: y; constraint int_lin_le_reif([1,1],[x,y],3,true); solve satisfy;", Empty, &[]),
    ("var 0..3: x; var 2..3: y; constraint int_lin_eq_reif([1,1],[x,y],6,false); solve satisfy;", Kept, &[&[(3, 3)], &[(3, 3)]]),
    ("var 3..3: x; var 2..3: y; constraint int_lin_eq_reif([1,1],[x,y],6,true); solve satisfy;", Kept, &[&[(3, 3)], &[(2, 2)]]),
    ("var 0..3: x; var 2..3: y; constraint int_lin_ne_reif([1,1],[x,y],6,true); solve satisfy;", Kept, &[&[(3, 3)], &[(3, 3)]]),
    // A clause, and all of some bools.
    ("var bool: x; var bool: y; var bool: r; constraint bool_clause_reif([x],[y],r); solve satisfy;", Kept, &[&[(0, 1)], &[(0, 1)], &[(0, 1)]]),
    ("var bool: x; var bool: y; var bool: r; constraint bool_clause_reif([x],[y],r); constraint bool_eq(x,false); constraint bool_eq(y,false); solve satisfy;", Kept, &[&[(0, 0)], &[(0, 0)], &[(0, 0)]]),
    ("var bool: x; var bool: y; var bool: r; constraint bool_clause_reif([x],[y],r); constraint bool_eq(x,false); constraint bool_eq(y,true); solve satisfy;", Kept, &[&[(0, 0)], &[(1, 1)], &[(1, 1)]]),
    ("var bool: x; var bool: y; var bool: r; constraint bool_clause_reif([x],[y],r); constraint bool_eq(r,true); solve satisfy;", Kept, &[&[(0, 0)], &[(1, 1)], &[(1, 1)]]),
    ("var bool: x; var bool: y; var bool: r; constraint bool_clause_reif([x],[y],r); constraint bool_eq(x,false); constraint bool_eq(r,false); solve satisfy;", Kept, &[&[(0, 0)], &[(0, 0)], &[(0, 0)]]),
    ("var bool: y; var bool: r; constraint bool_clause_reif([],[y],r); constraint bool_eq(y,false); constraint bool_eq(r,true); solve satisfy;", Empty, &[]),
    ("var bool: r; constraint bool_clause_reif([],[],r); solve satisfy;", Kept, &[&[(1, 1)]]),
    ("var bool: x; var bool: y; var bool: r; constraint array_bool_and([x,y],r); constraint bool_eq(x,true); constraint bool_eq(r,true); solve satisfy;", Kept, &[&[(1, 1)], &[(0, 0)], &[(1, 1)]]),
    ("var bool: x; var bool: y; var bool: r; constraint array_bool_and([x,y],r); constraint bool_eq(r,false); solve satisfy;", Kept, &[&[(1, 1)], &[(1, 1)], &[(0, 0)]]),
    // A set.
    ("var 6..8: x; var bool: r; constraint set_in_reif(x,{0,1,2,4,6,7,8,9},r); solve satisfy;", Kept, &[&[(6, 8)], &[(0, 0)]]),
    ("var 2..8: x; var bool: r; constraint set_in_reif(x,{0,1,2,4,6,7,8,9},r); solve satisfy;", Kept, &[&[(2, 8)], &[(0, 1)]]),
    ("var -3..-1: x; var bool: r; constraint set_in_reif(x,{0,1,2,4,6,7,8,9},r); solve satisfy;", Kept, &[&[(-3, -1)], &[(1, 1)]]),
    ("var 5..5: x; var bool: r; constraint set_in_reif(x,{0,1,2,4,6,7,8,9},r); solve satisfy;", Kept, &[&[(5, 5)], &[(1, 1)]]),
    ("var 1..7: x; constraint set_in_reif(x,{0,1,2,4,6,7,8,9},true); solve satisfy;", Kept, &[&[(3, 3), (5, 5)]]),
    ("var 1..7: x; constraint set_in_reif(x,{0,1,2,4,6,7,8,9},false); solve satisfy;", Kept, &[&[(1, 2), (4, 4), (6, 7)]]),
    ("var 6..9: x; constraint set_in_reif(x,{0,1,2,4,6,7,8,9},true); solve satisfy;", Empty, &[]),
    ("var 4..9: x; var bool: r; constraint set_in_reif(x,{},r); solve satisfy;", Kept, &[&[(4, 9)], &[(1, 1)]]),
    ("var bool: r; constraint set_in_reif(4,{4,6,7,8,9},r); solve satisfy;", Kept, &[&[(0, 0)]]),
    ("var bool: r; constraint set_in_reif(5,{4,6,7,8,9},r); solve satisfy;", Kept, &[&[(1, 1)]]),
    ("constraint set_in_reif(5,{4,6,7,8,9},true); constraint set_in_reif(4,{4,6,7,8,9},false); solve satisfy;", Kept, &[]),
    ("constraint set_in_reif(5,{4,6,7,8,9},false); solve satisfy;", Empty, &[]),
];

#[test]
fn turned_bases_narrow(rt: HostRuntime) -> Result<(), Fail> {
    for (text, answer, domains) in &ROWS {
        let model = turned_model(rt.alloc(), text)?;
        fixes(&rt, rt.alloc(), &model, text, None, *answer, domains)?;
    }
    Ok(())
}

/// Bases whose bounds tell all that is so of the bool.
#[rattlefmt::skip]
static TOLD: [&str; 9] = [
    "int_lin_le_reif([2,-1],[x,y],3,r)", "int_lin_le_reif([-1,-1],[x,y],-4,r)", "int_lin_le_reif([3,2],[x,-2],1,r)",
    "int_lin_eq_reif([1,1],[x,y],1,r)", "int_lin_ne_reif([1,-1],[x,y],3,r)", "int_lt_reif(x,y,r)", "set_in_reif(x,{},r)",
    "set_in_reif(x,{-3,-2,0,2,3,4,5,6,7,8,9},r)", "set_in_reif(x,{-9,-8,1,2},r)",
];

static SUMS: [&str; 2] = [
    "int_lin_eq_reif([2,2],[x,y],3,r)",
    "int_lin_ne_reif([2],[x],3,r)",
];

#[rattlefmt::skip]
static CLAUSES: [&str; 8] = [
    "bool_clause_reif([x,y],[],r)", "bool_clause_reif([x],[y,false],r)", "bool_clause_reif([],[],r)", "array_bool_and([x,y],r)",
    "bool_clause_reif([false],[x,x,true],r)", "bool_clause_reif([y],[y],r)", "bool_eq_reif(x,r,r)", "bool_lt_reif(x,y,r)",
];

/// Lists each constraint, turned, over each of some boxes, which are exact from a variable on.
fn list_all(
    rt: &impl Abort,
    alloc: Global,
    boxes: &[&str],
    cons: &[&str],
    exact: usize,
) -> Result<(), Fail> {
    for vars in boxes {
        for con in cons {
            let text = format!(in alloc; "{vars} constraint {con}; solve satisfy;")?;
            let model = turned_model(alloc, text.as_str())?;
            lists(rt, alloc, &model, text.as_str(), 1, exact)?;
        }
    }
    Ok(())
}

#[test]
fn turned_bases_keep_solutions(rt: HostRuntime) -> Result<(), Fail> {
    list_all(&rt, rt.alloc(), &OPEN, &TOLD, 2)?;
    list_all(&rt, rt.alloc(), &GAPS, &TOLD, 3)?;
    list_all(&rt, rt.alloc(), &OPEN, &SUMS, 3)?;
    list_all(&rt, rt.alloc(), &BOOLS, &CLAUSES, 3)
}
