//! The bound on the cost, and models that are too long to write down.

use super::{fixed, fixes, model_of};
use fzn_model::BoxView;
use prop_engine::Fixed::{self, Empty, Kept};
use std::alloc::{AllocError, Global};
use std::string::String;
use std::test::Fail;

/// What stands behind a variable over 1..3, the bound, the answer, and what is left of the variable.
#[rattlefmt::skip]
static GOALS: [(&str, i64, Fixed, &[(i64, i64)]); 11] = [
    ("solve minimize x;", 4, Kept, &[(1, 3)]),
    ("solve minimize x;", 3, Kept, &[(1, 2)]),
    ("solve minimize x;", 1, Empty, &[]),
    ("constraint int_lin_le([1],[x],0); solve minimize x;", 4, Empty, &[]),
    ("solve maximize x;", 0, Kept, &[(1, 3)]),
    ("solve maximize x;", -1, Kept, &[(2, 3)]),
    ("solve maximize x;", -3, Empty, &[]),
    ("solve satisfy;", 1, Kept, &[(1, 3)]),
    ("solve satisfy;", 0, Empty, &[]),
    ("solve minimize 7;", 8, Kept, &[(1, 3)]),
    ("solve minimize 7;", 7, Empty, &[]),
];

#[test]
fn goals_are_cut(rt: HostRuntime) -> Result<(), Fail> {
    for (rest, below, answer, domain) in &GOALS {
        let text = format!(in rt.alloc(); "var 1..3: x; {rest}")?;
        let domains = [*domain];
        let left = if *answer == Kept { &domains[..] } else { &[] };
        let model = model_of(rt.alloc(), text.as_str())?;
        fixes(
            &rt,
            rt.alloc(),
            &model,
            text.as_str(),
            Some(*below),
            *answer,
            left,
        )?;
    }
    Ok(())
}

/// So many variables over 0..99, each of which is less than the next one.
fn chain(alloc: Global, count: u32) -> Result<String, AllocError> {
    let mut text = String::new(alloc);
    for var in 0..count {
        text.push_str(format!(in alloc; "var 0..99: x{var}; ")?.as_str())?;
    }
    for var in 1..count {
        let before = var - 1;
        text.push_str(format!(in alloc; "constraint int_lt(x{before},x{var}); ")?.as_str())?;
    }
    text.push_str("solve satisfy;")?;
    Ok(text)
}

/// A chain as long as the domains: each variable has one value, which one run after the other finds.
#[test]
fn chains(rt: HostRuntime) -> Result<(), Fail> {
    let alloc = rt.alloc();
    let model = model_of(alloc, chain(alloc, 100)?.as_str())?;
    let (answer, store) = fixed(alloc, &model, None)?;
    assert_eq!(rt; (answer, store.count()), (Kept, 100));
    for var in 0..store.count() {
        let found = (store.low(var as u32), store.high(var as u32));
        assert_eq!(rt; found, (var as i64, var as i64));
    }
    Ok(())
}

/// The member of a list of so many constants from 0 up.
fn member_of(alloc: Global, count: u32) -> Result<String, AllocError> {
    let mut text = String::from_str(alloc, "var 0..5000: x; var 100..200: y; ")?;
    text.push_str("constraint array_int_element(x,[")?;
    for value in 0..count {
        text.push_str(format!(in alloc; "{value},")?.as_str())?;
    }
    text.push_str("],y); solve satisfy;")?;
    Ok(text)
}

#[test]
fn long_lists(rt: HostRuntime) -> Result<(), Fail> {
    let alloc = rt.alloc();
    let text = member_of(alloc, 1500)?;
    let left: [&[(i64, i64)]; 2] = [&[(101, 201)], &[(100, 200)]];
    let model = model_of(alloc, text.as_str())?;
    fixes(&rt, alloc, &model, text.as_str(), None, Kept, &left)
}
