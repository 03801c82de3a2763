//! Domains, initialisers and parameters; costs of assignments, and one more than the greatest cost.

ghost use Rattle.std.specs.Prelude.{◌↔◌, ◌<◌, IsTrue, All, length};
ghost use Rattle.fzn_model.specs.Limits.{IsNear};

use super::{Row, model_of, rows_hold};
use fzn_model::{Model, Runs, cost_of, top_of};
use std::alloc::Global;
use std::process::Abort;
use std::test::Fail;

#[rattlefmt::skip]
static ROWS: [Row; 9] = [
    // Inside each domain, and each constraint; outside of one of them at a time.
    ("var {-4,-3,-2,-1,3,4,5,6}: a; var 0..3: b; var 1..1: c; constraint int_abs(a,b); constraint int_div(b,2,c); solve satisfy;", &[&[-2, 2, 1], &[-3, 3, 1], &[3, 3, 1]], &[&[2, 2, 1], &[-4, 4, 2], &[-1, 1, 0], &[-2, 3, 1], &[-1, 1, 1]]),
    ("var -5..-2: a; solve satisfy;", &[&[-5], &[-2]], &[&[-6], &[-1]]),
    ("var {7,-3,7,-2}: a; var {}: b; solve satisfy;", &[], &[&[7, 0], &[-3, -2]]),
    ("var {7,-3,7,-2,8}: a; solve satisfy;", &[&[-3], &[-2], &[7], &[8]], &[&[-4], &[-1], &[6], &[9]]),
    // A gap in a set that is wide, and in one that is as wide as a domain with gaps may be.
    ("var {1,3000}: a; var {1,1024}: b; solve satisfy;", &[&[1, 1], &[3000, 1024]], &[&[2, 1], &[1, 2], &[1, 1025], &[3001, 1]]),
    ("var 0x10..0o22: a; var bool: b; solve satisfy;", &[&[16, 0], &[18, 1]], &[&[15, 0], &[19, 0], &[16, 2], &[16, -1]]),
    ("var 1..9: a; var 1..9: b = a; var bool: p = true; solve satisfy;", &[&[4, 4, 1]], &[&[4, 5, 1], &[4, 4, 0]]),
    ("int: n = -2; array [1..2] of int: c = [n,3]; var -9..9: a; array [1..2] of var int: x = [a,n]; constraint int_lin_eq(c,x,10); solve satisfy;", &[&[-8]], &[&[-3], &[8], &[-2]]),
    ("bool: t = true; set of int: k = {2,5}; var -9..9: a; constraint set_in_reif(a,k,t); constraint set_in(a,3..9); solve satisfy;", &[&[5]], &[&[2], &[3], &[9]]),
];

#[test]
fn solutions(rt: HostRuntime) -> Result<(), Fail> {
    rows_hold(&rt, rt.alloc(), &ROWS)
}

/// The goal of variables `a` in {-4..-1, 3..6}, `b` in 0..3 and `c` in 1..1, its cost where they are -3, 3 and 1, and one
/// more than the greatest cost.
#[rattlefmt::skip]
static GOALS: [(&str, i64, i64); 10] = [
    ("satisfy", 0, 1),
    ("minimize a", -3, 7),
    ("maximize a", 3, 5),
    ("minimize b", 3, 4),
    ("minimize c", 1, 2),
    ("maximize b", -3, 1),
    ("minimize 7", 7, 8),
    ("maximize 7", -7, -6),
    ("maximize -1000000", 1_000_000, 1_000_001),
    ("minimize n", 12, 13),
];

fn are_near(values: &[i64]) -> bool
    ensures { IsTrue result → All IsNear values.now }
{
    values.iter().all(|value| value.unsigned_abs() <= 2_000_000)
}

fn has_value(domain: &Runs) -> bool
    ensures { IsTrue result ↔ (0 < length domain.now) }
{
    !domain.runs.as_slice().is_empty()
}

fn have_values(domains: &[Runs]) -> bool
    ensures { IsTrue result ↔ All (λ d. 0 < length d) domains.now }
{
    domains.iter().all(|domain| has_value(domain))
}

/// The cost of some values, and one more than the greatest cost.
fn cost_and_top(model: &Model, values: &[i64]) -> Result<(i64, i64), Fail> {
    let domains = model.doms.as_slice();
    if domains.len() != values.len() || !are_near(values) || !have_values(domains) {
        return Err("other variables, or an empty domain")?;
    }
    Ok((cost_of(model, values), top_of(model)))
}

#[test]
fn costs(rt: HostRuntime) -> Result<(), Fail> {
    for (goal, cost, top) in &GOALS {
        let text = format!(in rt.alloc();
            "int: n = 12; var {{-4,-3,-2,-1,3,4,5,6}}: a; var 0..3: b; var 1..1: c; solve {goal};"
        )?;
        let model = model_of(rt.alloc(), text.as_str())?;
        let found = cost_and_top(&model, &[-3, 3, 1])?;
        assert_eq!(rt; found, (*cost, *top), "{goal}");
    }
    Ok(())
}
