//! The open variable of a list that ranks first.

ghost use Rattle.std.specs.Prelude.{◌≡◌, ◌<◌, ◌++◌, ◌∷◌, [], All, List, length};
ghost use Rattle.fzn_model.specs.declared.term.Term.{Term};
ghost use Rattle.fzn_model.specs.declared.term.Term.TheVariants as term;
ghost use Rattle.fzn_model.specs.Limits.{TermIn};
ghost use Rattle.brancher.specs.Branching.{rank};
ghost use Rattle.brancher.specs.Making.{IsBestOf};

use crate::view::{high_of, is_open, low_of};
use fzn_model::{BoxView, Term, VarBy};

/// The variable that ranks first so far, and its rank.
#[derive(Clone, Copy)]
pub(crate) struct Best {
    pub(crate) var: u32,
    pub(crate) rank: i64,
}

/// The rank of an open variable, the least first.
#[tactic(auto, unfolding(crate::specs::Branching::rank))]
fn rank_of<V: BoxView>(var: u32, by: VarBy, view: &V) -> i64
    requires { var < length (V.shape view.now) }
    ensures { result ≡ rank (V.shape view.now) by (term.Var var) }
{
    match by {
        VarBy::InputOrder => 0,
        VarBy::FirstFail => view.size(var) as i64,
        VarBy::Smallest => low_of(var, view),
        VarBy::Largest => -high_of(var, view),
    }
}

/// The variable that ranks first so far, and of a further term.
fn better<V: BoxView>(best: Option<Best>, term: Term, by: VarBy, view: &V) -> Option<Best>
    requires { TermIn (length (V.shape view.now)) term }
    ensures { (front : List Term) → IsBestOf (V.shape view.now) by front best → IsBestOf (V.shape view.now) by (front ++ term ∷ []) result }
{
    let Term::Var(var) = term else {
        return best;
    };
    if !is_open(var, view) {
        return best;
    }
    let rank = rank_of(var, by, view);
    match best {
        Some(found) if found.rank <= rank => best,
        _ => Some(Best { var, rank }),
    }
}

/// The open variable of a list that ranks first, and the first of these; none where all terms are fixed. One walk over the
/// list, which ends at the first open variable where its order decides.
#[tactic(auto, using(crate::proofs::Ranking::nothing))]
pub(crate) fn first_best<V: BoxView>(terms: &[Term], by: VarBy, view: &V) -> Option<Best>
    requires { All (TermIn (length (V.shape view.now))) terms.now }
    ensures { IsBestOf (V.shape view.now) by terms.now result }
{
    let mut best = None;
    for term in terms {
        best = better(best, *term, by, view);
        if by == VarBy::InputOrder && best.is_some() {
            return best;
        }
    }
    best
}
