ghost use Rattle.std.specs.Prelude.{◌≡◌, IfOk, length, unsigned_abs, neg_ℤ, pos, false, true, ◌≤◌, ◌≤ℤ◌, ◌+ℤ◌, ◌^◌};
ghost use Rattle.fzn_model.specs.declared.con.Con.TheVariants as con;
ghost use Rattle.fzn_model.specs.declared.base.Base.TheVariants as base;
ghost use Rattle.fzn_model.specs.declared.lin.Rel.TheVariants.{Le, Eq, Ne};
ghost use Rattle.fzn_model.specs.Limits.{SumInLimits};
ghost use Rattle.fzn_model.specs.Booleans.{FitsBox};
ghost use Rattle.fzn_model.specs.Boxes.{IsBox};
ghost use Rattle.fzn_model.specs.Bounds.{sum_low};
ghost use Rattle.dom_store.specs.Steps.{Step};
ghost use Rattle.lin_prop.specs.Signed.{signed_all};
ghost use Rattle.dom_store.specs.Sums.{IsReach};
ghost use Rattle.dom_store.specs.Strength.{ConIsOwed};
ghost use Rattle.lin_prop.specs.Kinds.{IsLinear, relation};
ghost use Rattle.fzn_model.specs.Meaning.{Holds};

use crate::capped::{Slack, cap_sum, cap_terms, cap_within, slack_of};
use crate::different::separate_sum;
use crate::scaled::cap_scaled;
use dom_store::{Pass, Passed, Propagator, Ran, Reach, Store, pass_on, reach_of, recall_domains};
use fzn_model::{Base, Con, Lin, Rel, Term};
use std::alloc::{AllocError, Global};
use std::marker::Model;

/// A propagator for linear relations, which contracts see as its constraint.
#[derive(Drop)]
pub struct LinProp {
    lin: Lin,
}

impl Model for LinProp {
    ghost use Rattle.fzn_model.specs.declared.con.Con.{Con};
    ghost use Rattle.fzn_model.specs.declared.con.Con.TheVariants as con;
    ghost use Rattle.fzn_model.specs.declared.base.Base.TheVariants as base;

    ghost Value = { Con };

    ghost view = { λ p. con.Base (base.Lin p.lin) };
}

/// The negative of a number.
fn negative(number: &i128) -> i128
    requires { unsigned_abs number.now ≤ 2 ^ 100 }
    ensures value { result ≡ neg_ℤ number.now }
    ensures small { unsigned_abs result ≤ 2 ^ 101 }
{
    -*number
}

/// Narrows for a sum that is at most a number.
fn pass_at_most(store: &mut Store, terms: &[(i64, Term)], r: &i128) -> Passed
    requires limits { SumInLimits (length store.old.box) terms.now }
    requires number { unsigned_abs r.now ≤ 2 ^ 100 }
    ensures { Step (ConIsOwed (relation Le terms.now r.now)) (Holds (relation Le terms.now r.now)) store.old store.new result }
{
    cap_sum(store, false, terms, r)
}

/// Narrows each term of a sum that is equal to a number, and whose least and greatest are so far from it.
fn cap_both(store: &mut Store, terms: &[(i64, Term)], r: &i128, up: &i64, down: &i64) -> Passed
    requires limits { SumInLimits (length store.old.box) terms.now }
    requires up { pos 0 ≤ℤ up.now }
    requires down { pos 0 ≤ℤ down.now }
    requires above { (up.now +ℤ sum_low store.old.box (signed_all false terms.now)) ≡ r.now }
    requires below { (down.now +ℤ sum_low store.old.box (signed_all true terms.now)) ≡ neg_ℤ r.now }
    requires well_formed { IsBox store.old.box }
    ensures { Step (ConIsOwed (relation Eq terms.now r.now)) (Holds (relation Eq terms.now r.now)) store.old store.new result }
{
    for scaled in terms {
        match cap_scaled(store, false, scaled, up) {
            Passed::Empty => return Passed::Empty,
            Passed::Done => {}
        }
        match cap_scaled(store, true, scaled, down) {
            Passed::Empty => return Passed::Empty,
            Passed::Done => {}
        }
    }
    Passed::Done
}

/// Narrows for a sum that is equal to a number, where its least is so far below it.
fn cap_by(store: &mut Store, terms: &[(i64, Term)], reach: &Reach, r: &i128, up: &i64) -> Passed
    requires limits { SumInLimits (length store.old.box) terms.now }
    requires number { unsigned_abs r.now ≤ 2 ^ 100 }
    requires reach { IsReach store.old.box terms.now reach.now }
    requires up { pos 0 ≤ℤ up.now }
    requires above { (up.now +ℤ sum_low store.old.box (signed_all false terms.now)) ≡ r.now }
    requires well_formed { IsBox store.old.box }
    ensures { Step (ConIsOwed (relation Eq terms.now r.now)) (Holds (relation Eq terms.now r.now)) store.old store.new result }
{
    let other = negative(r);
    match slack_of(true, reach, &other) {
        Slack::Over => Passed::Empty,
        Slack::Ample => cap_terms(store, false, terms, r, up),
        Slack::Scarce(down) => cap_both(store, terms, r, up, &down),
    }
}

/// Narrows for a sum that is equal to a number: at most it, and its negative at most the number's negative.
fn pass_equal(store: &mut Store, terms: &[(i64, Term)], r: &i128) -> Passed
    requires limits { SumInLimits (length store.old.box) terms.now }
    requires number { unsigned_abs r.now ≤ 2 ^ 100 }
    ensures { Step (ConIsOwed (relation Eq terms.now r.now)) (Holds (relation Eq terms.now r.now)) store.old store.new result }
{
    recall_domains(store);
    let reach = reach_of(store, terms);
    match slack_of(false, &reach, r) {
        Slack::Over => Passed::Empty,
        Slack::Ample => cap_within(store, true, terms, &reach, &negative(r)),
        Slack::Scarce(up) => cap_by(store, terms, &reach, r, &up),
    }
}

/// Narrows for a sum that differs from a number.
fn pass_different(store: &mut Store, terms: &[(i64, Term)], r: &i128) -> Passed
    requires limits { SumInLimits (length store.old.box) terms.now }
    requires number { unsigned_abs r.now ≤ 2 ^ 100 }
    ensures { Step (ConIsOwed (relation Ne terms.now r.now)) (Holds (relation Ne terms.now r.now)) store.old store.new result }
{
    separate_sum(store, terms, r)
}

/// Narrows for a relation.
fn pass_relation(rel: Rel, store: &mut Store, terms: &[(i64, Term)], r: &i128) -> Passed
    requires limits { SumInLimits (length store.old.box) terms.now }
    requires number { unsigned_abs r.now ≤ 2 ^ 100 }
    ensures { Step (ConIsOwed (relation rel terms.now r.now)) (Holds (relation rel terms.now r.now)) store.old store.new result }
{
    match rel {
        Rel::Le => pass_at_most(store, terms, r),
        Rel::Eq => pass_equal(store, terms, r),
        Rel::Ne => pass_different(store, terms, r),
    }
}

impl LinProp {
    /// The propagator for a linear relation, `Con::Base(Base::Lin(..))`.
    pub fn new(alloc: Global, con: &Con) -> Result<LinProp, AllocError>
        requires { IsLinear con.now }
        ensures { IfOk result (λ p. p ≡ con.now) }
    {
        let Con::Base(Base::Lin(lin)) = con else {
            unreachable!()
        };
        Ok(LinProp {
            lin: lin.copy(alloc)?,
        })
    }
}

/// One pass for a relation.
fn pass_lin(store: &mut Store, lin: &Lin) -> Passed
    requires { FitsBox store.old.box (con.Base (base.Lin lin.now)) }
    ensures { Step (ConIsOwed (con.Base (base.Lin lin.now))) (Holds (con.Base (base.Lin lin.now))) store.old store.new result }
{
    pass_relation(lin.rel, store, lin.terms.as_slice(), &lin.r)
}

impl Pass for LinProp {
    ghost subject = { λ c. c };

    #[tactic(auto, using(dom_store::proofs::Stepping::step_concludes))]
    fn pass(&mut self, store: &mut Store) -> Result<Passed, AllocError> {
        Ok(pass_lin(store, &self.lin))
    }
}

impl Propagator for LinProp {
    ghost constraint = { λ c. c };

    fn run(&mut self, store: &mut Store) -> Result<Ran, AllocError> {
        pass_on(self, store)
    }
}
