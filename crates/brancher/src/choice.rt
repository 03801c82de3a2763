//! The cut at which a search branches.

ghost use Rattle.std.specs.Prelude.{◌≡◌, ◌↔◌, ◌<◌, ℕ, IsTrue, IfSome, IfNone, All, length};
ghost use Rattle.std.specs.Option.{IsNone};
ghost use Rattle.fzn_model.specs.declared.term.Term.TheVariants as term;
ghost use Rattle.fzn_model.specs.Limits.{PickInLimits, GoalInLimits};
ghost use Rattle.fzn_model.specs.Bounds.{IsFixed};
ghost use Rattle.brancher.specs.Branching.{AllFixed, IsGoal, IsPicked, NonePicked, IsFirstOther, IsGoalLast, IsChosen, HasSides};

use crate::best::first_best;
use crate::cut::{Cut, cut_by, rule_for};
use crate::view::is_open;
use fzn_model::{BoxView, Goal, Model, Pick, Term, ValAt};

/// The cut of the first annotation that has an open variable.
#[tactic(auto, using(crate::proofs::Picking::none_yet, crate::proofs::Ranking::all_fixed))]
fn picked<V: BoxView>(picks: &[Pick], view: &V) -> Option<Cut>
    requires { All (PickInLimits (length (V.shape view.now))) picks.now }
    ensures some { IfSome result (λ cut. IsPicked (V.shape view.now) picks.now cut) }
    ensures none { IfNone result (NonePicked (V.shape view.now) picks.now) }
    ensures sides { IfSome result (λ cut. HasSides (V.shape view.now) cut) }
{
    for pick in picks {
        if let Some(best) = first_best(pick.vars.as_slice(), pick.by, view) {
            return Some(cut_by(best.var, rule_for(best.var, pick.at, view), view));
        }
    }
    None
}

fn is_goal(goal: Goal, var: u32) -> bool
    ensures { IsTrue result ↔ IsGoal goal var }
{
    match goal {
        Goal::Satisfy => false,
        Goal::Minimise(term) | Goal::Maximise(term) => term == Term::Var(var),
    }
}

/// The cut of the first open variable by number other than the goal's, of this many variables.
fn first_other<V: BoxView>(count: u32, goal: Goal, view: &V) -> Option<Cut>
    requires { count ≡ length (V.shape view.now) }
    ensures some { IfSome result (λ cut. IsFirstOther (V.shape view.now) goal cut) }
    ensures none { IfNone result ((k : ℕ) → k < length (V.shape view.now) → (IsGoal goal k → ⊥) → IsFixed (V.shape view.now) (term.Var k)) }
    ensures sides { IfSome result (λ cut. HasSides (V.shape view.now) cut) }
{
    for var in 0..count {
        if !is_goal(goal, var) && is_open(var, view) {
            return Some(cut_by(var, rule_for(var, ValAt::Min, view), view));
        }
    }
    None
}

/// The cut of the goal's variable, where it is open.
fn goal_last<V: BoxView>(goal: Goal, view: &V) -> Option<Cut>
    requires goal { GoalInLimits (length (V.shape view.now)) goal }
    requires others { (k : ℕ) → k < length (V.shape view.now) → (IsGoal goal k → ⊥) → IsFixed (V.shape view.now) (term.Var k) }
    ensures some { IfSome result (λ cut. IsGoalLast (V.shape view.now) goal cut) }
    ensures none { IfNone result (AllFixed (V.shape view.now)) }
    ensures sides { IfSome result (λ cut. HasSides (V.shape view.now) cut) }
{
    let (var, rule) = match goal {
        Goal::Minimise(Term::Var(var)) => (var, ValAt::Min),
        Goal::Maximise(Term::Var(var)) => (var, ValAt::Max),
        _ => return None,
    };
    if is_open(var, view) {
        Some(cut_by(var, rule, view))
    } else {
        None
    }
}

/// The cut at which a search branches: by the first annotation of the model that has an open variable; else of the first
/// open variable by number other than the goal's, at its least value; else of the goal's variable, its least cost
/// first. A domain whose bounds lie 1,024 or more apart is split instead, but not that of the goal's variable where it
/// comes last. None exactly where all variables are fixed. Both sides of the cut have an assignment of the box. Takes no
/// memory; one walk over each annotation up to the one that decides, and at most one over all variables.
pub fn choose<V: BoxView>(view: &V, model: &Model) -> Option<Cut>
    requires { length (V.shape view.now) ≡ length model.now.doms }
    ensures none { IsNone result ↔ AllFixed (V.shape view.now) }
    ensures chosen { IfSome result (λ cut. IsChosen (V.shape view.now) model.now cut) }
    ensures sides { IfSome result (λ cut. HasSides (V.shape view.now) cut) }
{
    if let Some(cut) = picked(model.order.as_slice(), view) {
        return Some(cut);
    }
    let count = model.doms.as_slice().len() as u32;
    if let Some(cut) = first_other(count, model.goal, view) {
        return Some(cut);
    }
    goal_last(model.goal, view)
}
