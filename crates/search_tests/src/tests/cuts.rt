use brancher::{Cut, choose};
use dom_store::Store;
use fzn_model::Model;
use fzn_parser::parse;
use std::alloc::Global;
use std::process::Abort;
use std::test::Fail;

/// A cut: the number of the variable, where it is cut, and whether the side above comes first.
type Parts = (u32, i64, bool);

/// The text of a model, and the cut that is chosen of its domains; none where all are fixed.
type Row = (&'static str, Option<Parts>);

fn parts_of(cut: Option<Cut>) -> Option<Parts> {
    match cut {
        Some(cut) => Some((cut.var, cut.at, cut.up_first)),
        None => None,
    }
}

/// The cut that is chosen of all domains of a model.
#[tactic(auto, using(dom_store::specs::Views::box_count))]
fn chosen_in(alloc: Global, model: &Model) -> Result<Option<Parts>, Fail> {
    let Some(store) = Store::new(alloc, model)? else {
        return Err("a domain is empty")?;
    };
    Ok(parts_of(choose(&store, model)))
}

/// The cut that is chosen of the domains of the model that a text states.
fn chosen(alloc: Global, text: &str) -> Result<Option<Parts>, Fail> {
    match parse(alloc, text.as_bytes()) {
        Ok(model) => chosen_in(alloc, &model),
        Err(_) => Err("a text is refused")?,
    }
}

/// Fails where a row's cut is another one.
fn all_choose(rt: &impl Abort, alloc: Global, rows: &[Row]) -> Result<(), Fail> {
    for (text, expected) in rows {
        let found = chosen(alloc, text)?;
        assert_eq!(rt; found, *expected, "{text}");
    }
    Ok(())
}

#[rattlefmt::skip]
static SELECTIONS: [Row; 12] = [
    ("var 3..3: a; var 2..7: x; var 0..1: y; solve :: int_search([y,x],input_order,indomain_min,complete) satisfy;", Some((2, 0, false))),
    ("var 3..3: a; var 2..7: x; var 0..1: y; solve :: int_search([a,x,y],input_order,indomain_min,complete) satisfy;", Some((1, 2, false))),
    ("var 0..3: x; var {1,5,9}: y; var 0..2: z; solve :: int_search([x,y,z],first_fail,indomain_min,complete) satisfy;", Some((1, 1, false))),
    ("var 0..3: x; var {1,5,9}: y; var 0..2: z; solve :: int_search([x,z,y],first_fail,indomain_min,complete) satisfy;", Some((2, 0, false))),
    ("var 4..4: a; var 0..3: x; var 0..2: z; solve :: int_search([a,x,z],first_fail,indomain_min,complete) satisfy;", Some((2, 0, false))),
    ("var 2..9: x; var -3..4: y; var -3..0: z; solve :: int_search([x,y,z],smallest,indomain_min,complete) satisfy;", Some((1, -3, false))),
    ("var 2..9: x; var -3..4: y; var -3..0: z; solve :: int_search([x,z,y],smallest,indomain_max,complete) satisfy;", Some((2, -1, true))),
    ("var -9..-9: a; var 2..9: x; var 1..3: y; solve :: int_search([a,x,y],smallest,indomain_min,complete) satisfy;", Some((2, 1, false))),
    ("var 2..9: x; var -3..12: y; var 5..12: z; solve :: int_search([x,y,z],largest,indomain_min,complete) satisfy;", Some((1, -3, false))),
    ("var 2..9: x; var -3..12: y; var 5..12: z; solve :: int_search([z,x,y],largest,indomain_min,complete) satisfy;", Some((2, 5, false))),
    ("var 20..20: a; var -9..-5: x; var -8..-4: y; solve :: int_search([a,x,y],largest,indomain_min,complete) satisfy;", Some((2, -8, false))),
    ("var 0..3: x; var 0..5: y; solve :: int_search([y,x],first_fail,indomain_max,complete) satisfy;", Some((0, 2, true))),
];

/// Each way to choose a variable of a list, fixed variables of better rank, and ties, of which the first is taken.
#[test]
fn selections(rt: HostRuntime) -> Result<(), Fail> {
    all_choose(&rt, rt.alloc(), &SELECTIONS)
}

#[rattlefmt::skip]
static PLACES: [Row; 12] = [
    ("var {2,5,9}: x; solve :: int_search([x],input_order,indomain_min,complete) satisfy;", Some((0, 2, false))),
    ("var {2,5,9}: x; solve :: int_search([x],input_order,indomain_max,complete) satisfy;", Some((0, 8, true))),
    ("var {2,5,9}: x; solve :: int_search([x],input_order,indomain_split,complete) satisfy;", Some((0, 5, false))),
    ("var 0..1: x; solve :: int_search([x],input_order,indomain_split,complete) satisfy;", Some((0, 0, false))),
    ("var 0..4: x; solve :: int_search([x],input_order,indomain_split,complete) satisfy;", Some((0, 2, false))),
    ("var -3..2: x; solve :: int_search([x],input_order,indomain_split,complete) satisfy;", Some((0, -1, false))),
    ("var -7..-4: x; solve :: int_search([x],input_order,indomain_split,complete) satisfy;", Some((0, -6, false))),
    ("var -6..-4: x; solve :: int_search([x],input_order,indomain_split,complete) satisfy;", Some((0, -5, false))),
    ("var -2..-1: x; solve :: int_search([x],input_order,indomain_max,complete) satisfy;", Some((0, -2, true))),
    ("var bool: b; solve :: bool_search([b],input_order,indomain_max,complete) satisfy;", Some((0, 0, true))),
    ("var bool: b; solve :: bool_search([b],input_order,indomain_min,complete) satisfy;", Some((0, 0, false))),
    ("var 3..3: a; var 2..7: x; var 0..1: y; solve satisfy;", Some((1, 2, false))),
];

/// Each way to cut a domain: with holes, of two values, below 0, where half of the sum is rounded down.
#[test]
fn places(rt: HostRuntime) -> Result<(), Fail> {
    all_choose(&rt, rt.alloc(), &PLACES)
}

#[rattlefmt::skip]
static WIDE_DOMAINS: [Row; 12] = [
    ("var 0..1023: x; solve :: int_search([x],input_order,indomain_min,complete) satisfy;", Some((0, 0, false))),
    ("var 0..1023: x; solve :: int_search([x],input_order,indomain_max,complete) satisfy;", Some((0, 1022, true))),
    ("var 0..1024: x; solve :: int_search([x],input_order,indomain_min,complete) satisfy;", Some((0, 512, false))),
    ("var 0..1024: x; solve :: int_search([x],input_order,indomain_max,complete) satisfy;", Some((0, 512, false))),
    ("var -1000..23: x; solve :: int_search([x],input_order,indomain_max,complete) satisfy;", Some((0, 22, true))),
    ("var -1000..24: x; solve :: int_search([x],input_order,indomain_max,complete) satisfy;", Some((0, -488, false))),
    ("var -1001..24: x; solve :: int_search([x],input_order,indomain_min,complete) satisfy;", Some((0, -489, false))),
    ("var {0,1024}: x; solve :: int_search([x],first_fail,indomain_min,complete) satisfy;", Some((0, 512, false))),
    ("var 0..2000: x; solve :: int_search([x],first_fail,indomain_split,complete) satisfy;", Some((0, 1000, false))),
    ("var 0..1023: x; solve satisfy;", Some((0, 0, false))),
    ("var 0..1024: x; solve satisfy;", Some((0, 512, false))),
    ("var -1025..0: x; solve satisfy;", Some((0, -513, false))),
];

/// A domain whose bounds lie 1,023 apart is cut as it is said, and one of 1,024 or more in the middle.
#[test]
fn wide_domains(rt: HostRuntime) -> Result<(), Fail> {
    all_choose(&rt, rt.alloc(), &WIDE_DOMAINS)
}

#[rattlefmt::skip]
static GOALS: [Row; 12] = [
    ("var 0..5: z; var 1..4: x; solve minimize z;", Some((1, 1, false))),
    ("var 0..5: z; var 1..4: x; solve maximize z;", Some((1, 1, false))),
    ("var 0..5: z; var 1..1: x; solve minimize z;", Some((0, 0, false))),
    ("var 0..5: z; var 1..1: x; solve maximize z;", Some((0, 4, true))),
    ("var -5000..5000: z; solve minimize z;", Some((0, -5000, false))),
    ("var -5000..5000: z; solve maximize z;", Some((0, 4999, true))),
    ("var 0..5: z; var 0..3: x; solve :: int_search([z,x],input_order,indomain_max,complete) minimize z;", Some((0, 4, true))),
    ("var 0..5000: z; var 0..3: x; solve :: int_search([z,x],input_order,indomain_min,complete) minimize z;", Some((0, 2500, false))),
    ("var 0..5: z; var 1..1: x; solve :: int_search([x],first_fail,indomain_max,complete) minimize z;", Some((0, 0, false))),
    ("var 2..2: z; var 1..4: x; solve maximize z;", Some((1, 1, false))),
    ("var 0..5: x; solve maximize 7;", Some((0, 0, false))),
    ("var 0..5: z; var 0..2000: x; solve minimize z;", Some((1, 1000, false))),
];

/// The variable of the goal comes last, its least cost first, however wide; an annotation may name it before.
#[test]
fn goals(rt: HostRuntime) -> Result<(), Fail> {
    all_choose(&rt, rt.alloc(), &GOALS)
}

#[rattlefmt::skip]
static ANNOTATIONS: [Row; 9] = [
    ("var 1..1: a; var 2..2: b; var 0..4: x; solve :: int_search([a,b],largest,indomain_max,complete) satisfy;", Some((2, 0, false))),
    ("var 1..1: a; var 0..3: x; var 0..9: y; solve :: seq_search([int_search([a],input_order,indomain_min,complete),int_search([y,x],first_fail,indomain_max,complete)]) satisfy;", Some((1, 2, true))),
    ("var 1..1: a; var 0..3: x; var 0..9: y; solve :: seq_search([int_search([y],input_order,indomain_split,complete),int_search([x],input_order,indomain_max,complete)]) satisfy;", Some((2, 4, false))),
    ("var 0..3: x; var 0..9: y; solve :: seq_search([int_search([],input_order,indomain_max,complete),int_search([y],input_order,indomain_max,complete)]) satisfy;", Some((1, 8, true))),
    ("var 0..3: x; var 0..9: y; var 0..2: z; solve :: seq_search([int_search([y,x],first_fail,indomain_max,complete),int_search([z],input_order,indomain_min,complete)]) satisfy;", Some((0, 2, true))),
    ("var 1..1: a; var 7..7: b; solve :: int_search([a,b],first_fail,indomain_min,complete) minimize b;", None),
    ("var 1..1: a; var 7..7: b; solve satisfy;", None),
    ("solve satisfy;", None),
    ("solve maximize 7;", None),
];

/// The first annotation with an open variable decides; none has one; no variable is open, and there is none.
#[test]
fn annotations(rt: HostRuntime) -> Result<(), Fail> {
    all_choose(&rt, rt.alloc(), &ANNOTATIONS)
}
