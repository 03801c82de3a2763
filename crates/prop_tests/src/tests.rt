ghost use Rattle.std.specs.Prelude.{◌<◌, All, length};

// What is tested of each kind of constraint, and of the goal.
mod arithmetic;
mod globals;
mod goals;
mod listing;
mod logic;
mod sums;
mod turned;

use dom_store::Store;
use fzn_model::{BoxView, Model, top_of};
use fzn_parser::parse;
use prop_engine::{Engine, Fixed};
use std::alloc::{AllocError, Global};
use std::process::Abort;
use std::test::Fail;

/// The values of a domain, as runs.
type Domain = &'static [(i64, i64)];

/// The text of a model, the answer below its greatest bound, and the domains that are left in order of declaration. They
/// are compared at `Kept`, and where there are any.
type Row = (&'static str, Fixed, &'static [Domain]);

/// A bound, or the greatest one of the model.
fn bound_of(model: &Model, below: Option<i64>) -> i64
    requires { All (λ d. 0 < length d) model.now.doms }
{
    match below {
        Some(bound) => bound,
        None => top_of(model),
    }
}

/// The store of a model, and what fixing it below the bound answers; below the greatest one, where none is said.
#[tactic(auto, using(prop_engine::proofs::Models::same_model, prop_engine::proofs::Ready::ready_first, dom_store::proofs::Made::none_empty))]
fn fixed(alloc: Global, model: &Model, below: Option<i64>) -> Result<(Fixed, Store), Fail> {
    let Some(mut store) = Store::new(alloc, model)? else {
        return Err("a domain is empty")?;
    };
    let mut engine = Engine::new(alloc, model)?;
    let _doms = &model.doms;
    let answer = engine.fix(&mut store, bound_of(model, below))?;
    Ok((answer, store))
}

/// Adds a value that is greater than those of all runs.
fn add(runs: &mut Vec<(i64, i64)>, value: i64) -> Result<(), AllocError> {
    if let Some(last) = runs.last_mut()
        && last.1 == value.wrapping_sub(1)
    {
        last.1 = value;
        return Ok(());
    }
    runs.push((value, value))?;
    Ok(())
}

/// The values of a variable, as runs.
fn runs_of(alloc: Global, store: &Store, var: u32) -> Result<Vec<(i64, i64)>, AllocError>
    requires { var < length store.now.box }
{
    let mut runs = Vec::new(alloc);
    for value in store.low(var)..=store.high(var) {
        if store.has(var, value) {
            add(&mut runs, value)?;
        }
    }
    Ok(runs)
}

/// Fails where the variables of the store have other values than these.
fn has_domains(
    rt: &impl Abort,
    alloc: Global,
    store: &Store,
    domains: &[&[(i64, i64)]],
    text: &str,
) -> Result<(), Fail> {
    assert_eq!(rt; store.count(), domains.len(), "{text}");
    for (var, domain) in domains.iter().enumerate() {
        let runs = runs_of(alloc, store, var as u32)?;
        assert_eq!(rt; runs.as_slice(), *domain, "{text} {var}");
    }
    Ok(())
}

/// The model that a text states.
fn model_of(alloc: Global, text: &str) -> Result<Model, Fail> {
    match parse(alloc, text.as_bytes()) {
        Ok(model) => Ok(model),
        Err(_) => Err("a text is refused")?,
    }
}

/// Fails where fixing the model of a text has another answer, or leaves other domains.
fn fixes(
    rt: &impl Abort,
    alloc: Global,
    model: &Model,
    text: &str,
    below: Option<i64>,
    answer: Fixed,
    domains: &[&[(i64, i64)]],
) -> Result<(), Fail> {
    let (found, store) = fixed(alloc, model, below)?;
    assert_eq!(rt; found, answer, "{text}");
    if answer == Fixed::Kept || !domains.is_empty() {
        has_domains(rt, alloc, &store, domains, text)?;
    }
    Ok(())
}

/// Fails where a row has another answer, or leaves other domains.
fn all_fix(rt: &impl Abort, alloc: Global, rows: &[Row]) -> Result<(), Fail> {
    for (text, answer, domains) in rows {
        let model = model_of(alloc, text)?;
        fixes(rt, alloc, &model, text, None, *answer, domains)?;
    }
    Ok(())
}
