ghost use Rattle.std.specs.Prelude.{◌≡◌, ◌↔◌, ◌<◌, ◌≤ℤ◌, ◌+ℤ◌, ◌-ℤ◌, ℤ, pos, IsTrue, All, length};
ghost use Rattle.fzn_model.specs.Meaning.{Holds};
ghost use Rattle.fzn_model.specs.Solutions.{InDomains, MeetsAll, Solves, cost, top, greatest_cost, IsTop, CanBe, low_term, high_term};
ghost use Rattle.fzn_model.specs.Limits.{IsNear, IsValue, TermIn, GoalInLimits, DomainInLimits, ConInLimits, of_model};

use crate::con::Con;
use crate::goal::Goal;
use crate::list::List;
use crate::out::Out;
use crate::pick::Pick;
use crate::runs::Runs;
use crate::term::Term;

/// A whole model: a domain for each variable, constraints, a goal, outputs in order of declaration and search
/// annotations. Its variables are in range, its Booleans lie within 0..1, and it is within the limits.
#[derive(Debug, Drop)]
pub struct Model {
    pub doms: List<Runs>,
    pub cons: List<Con>,
    pub goal: Goal,
    pub outs: List<Out>,
    pub order: List<Pick>,
}

impl std::marker::Model for Model {
    ghost use Rattle.fzn_model.specs.Parts.{Parts};

    ghost Value = { Parts };

    ghost use Rattle.fzn_model.specs.Limits.{IsModel};

    ghost view = { λ m. record { doms = m.doms; cons = m.cons; goal = m.goal; outs = m.outs; order = m.order } };

    ghost invariant = { λ m. IsModel (record { doms = m.doms; cons = m.cons; goal = m.goal; outs = m.outs; order = m.order }) };
}

#[tactic(auto, unfolding(crate::specs::Solutions::InDomains))]
fn in_domains(domains: &[Runs], values: &[i64]) -> bool
    ensures { IsTrue result ↔ InDomains domains.now values.now }
{
    domains.len() == values.len()
        && domains
            .iter()
            .zip(values)
            .all(|(domain, value)| domain.contains(*value))
}

/// A constraint of a model holds.
#[tactic(auto, using(crate::proofs::Wider::con_of_call))]
fn meets(con: &Con, values: &[i64]) -> bool
    requires { ConInLimits of_model (length values.now) con.now }
    ensures { IsTrue result ↔ Holds con.now values.now }
{
    con.holds(values)
}

#[tactic(auto, unfolding(crate::specs::Solutions::MeetsAll))]
fn meets_all(cons: &[Con], values: &[i64]) -> bool
    requires { All (ConInLimits of_model (length values.now)) cons.now }
    ensures { IsTrue result ↔ MeetsAll cons.now values.now }
{
    cons.iter().all(|con| meets(con, values))
}

/// Whether the values are a solution: each is in its domain, and each constraint holds. Takes no memory.
pub fn satisfies(model: &Model, values: &[i64]) -> bool
    requires { length values.now ≡ length model.now.doms }
    ensures { IsTrue result ↔ Solves model.now values.now }
{
    in_domains(model.doms.as_slice(), values) && meets_all(model.cons.as_slice(), values)
}

/// The value minimised, minus the value maximised, or 0 for satisfaction. Takes no memory.
pub fn cost_of(model: &Model, values: &[i64]) -> i64
    requires count { length values.now ≡ length model.now.doms }
    requires near { All IsNear values.now }
    ensures { result ≡ cost model.now values.now }
{
    match model.goal {
        Goal::Satisfy => 0,
        Goal::Minimise(term) => term.value(values),
        Goal::Maximise(term) => -term.value(values),
    }
}

/// The greatest number of a term.
fn highest(domains: &[Runs], term: Term) -> i64
    requires term { TermIn (length domains.now) term }
    requires domains { All DomainInLimits domains.now }
    requires some { All (λ d. 0 < length d) domains.now }
    ensures value { result ≡ high_term domains.now term }
    ensures within { IsValue result }
    ensures reached { CanBe domains.now term result }
    ensures above { (z : ℤ) → CanBe domains.now term z → z ≤ℤ result }
{
    match term {
        Term::Const(value) => value,
        Term::Var(var) => domains[var as usize].high(),
    }
}

/// The least number of a term.
fn lowest(domains: &[Runs], term: Term) -> i64
    requires term { TermIn (length domains.now) term }
    requires domains { All DomainInLimits domains.now }
    requires some { All (λ d. 0 < length d) domains.now }
    ensures value { result ≡ low_term domains.now term }
    ensures within { IsValue result }
    ensures reached { CanBe domains.now term result }
    ensures below { (z : ℤ) → CanBe domains.now term z → result ≤ℤ z }
{
    match term {
        Term::Const(value) => value,
        Term::Var(var) => domains[var as usize].low(),
    }
}

fn after(high: i64) -> i64
    requires { IsValue high }
    ensures { result ≡ (high +ℤ pos 1) }
{
    high + 1
}

fn after_negated(low: i64) -> i64
    requires { IsValue low }
    ensures { result ≡ (pos 1 -ℤ low) }
{
    1 - low
}

/// One more than the greatest cost that the domains allow.
#[tactic(auto, using(crate::proofs::Tops::top_satisfy, crate::proofs::Tops::top_minimise, crate::proofs::Tops::top_maximise))]
fn top_under(domains: &[Runs], goal: Goal) -> i64
    requires goal { GoalInLimits (length domains.now) goal }
    requires domains { All DomainInLimits domains.now }
    requires some { All (λ d. 0 < length d) domains.now }
    ensures value { result ≡ (greatest_cost domains.now goal +ℤ pos 1) }
    ensures greatest { IsTop domains.now goal result }
{
    match goal {
        Goal::Satisfy => 1,
        Goal::Minimise(term) => after(highest(domains, term)),
        Goal::Maximise(term) => after_negated(lowest(domains, term)),
    }
}

/// One more than the greatest cost that the goal's domain allows; 1 for satisfaction. Takes no memory.
pub fn top_of(model: &Model) -> i64
    requires { All (λ d. 0 < length d) model.now.doms }
    ensures value { result ≡ top model.now }
    ensures greatest { IsTop model.now.doms model.now.goal result }
{
    top_under(model.doms.as_slice(), model.goal)
}
