ghost use Rattle.std.specs.Prelude.{◌≡◌, length, pos, IfSome, IfNone};
ghost use Rattle.fzn_model.specs.Boxes.{IsBox};
ghost use Rattle.fzn_model.specs.Limits.{TermIn, IsValue};
ghost use Rattle.arith_prop.specs.Division.{divided, IsOnly, AreOnly, IsLoose, AreLoose};
ghost use Rattle.arith_prop.specs.Parts.{division_con};
ghost use Rattle.arith_prop.specs.Passes.{IsPass};

use dom_store::{Passed, Store, fix, greatest, least, recall_domains};
use fzn_model::Term;

/// What of a division the result is.
#[derive(Clone, Copy)]
pub(crate) enum Part {
    Quotient,
    Remainder,
}

/// The only value of a term, where it has but one.
#[tactic(auto, unfolding(crate::specs::Division::IsLoose))]
fn only(store: &Store, term: Term) -> Option<i64>
    requires { TermIn (length store.now.box) term }
    ensures some { IfSome result (λ value. IsOnly store.now.box term value) }
    ensures none { IfNone result (IsLoose store.now.box term) }
{
    let low = least(store, term);
    if low == greatest(store, term) {
        Some(low)
    } else {
        None
    }
}

/// The only values of a dividend and a divisor, where each has but one.
#[tactic(auto, unfolding(crate::specs::Division::IsLoose, crate::specs::Division::AreLoose))]
fn arguments(store: &Store, a: Term, b: Term) -> Option<(i64, i64)>
    requires first { TermIn (length store.now.box) a }
    requires second { TermIn (length store.now.box) b }
    ensures some { IfSome result (λ values. AreOnly store.now.box a b values) }
    ensures none { IfNone result (AreLoose store.now.box a b) }
    ensures well_formed { IsBox store.now.box }
{
    recall_domains(store);
    match (only(store, a), only(store, b)) {
        (Some(dividend), Some(divisor)) => Some((dividend, divisor)),
        _ => None,
    }
}

/// The quotient of two values, rounded towards zero, or what that division leaves.
fn divided(part: Part, args: &(i64, i64)) -> i64
    requires range { IsValue args.now.0 × IsValue args.now.1 }
    requires some { args.now.1 ≡ pos 0 → ⊥ }
    ensures { result ≡ divided part args.now.0 args.now.1 }
{
    match part {
        Part::Quotient => args.0 / args.1,
        Part::Remainder => args.0 % args.1,
    }
}

/// Fixes the result at what the division of two values gives.
fn fix_result(store: &mut Store, part: Part, a: Term, b: Term, c: Term, args: &(i64, i64)) -> Passed
    requires terms { TermIn (length store.old.box) a × TermIn (length store.old.box) b × TermIn (length store.old.box) c }
    requires well_formed { IsBox store.old.box }
    requires only { AreOnly store.old.box a b args.now }
    ensures { IsPass (division_con part a b c) store.old store.new result }
{
    if args.1 == 0 {
        return Passed::Empty;
    }
    fix(store, c, &divided(part, args))
}

/// One pass over a division: where the arguments are fixed, fixes the result.
pub(crate) fn pass_division(store: &mut Store, part: Part, a: Term, b: Term, c: Term) -> Passed
    requires { TermIn (length store.old.box) a × TermIn (length store.old.box) b × TermIn (length store.old.box) c }
    ensures { IsPass (division_con part a b c) store.old store.new result }
{
    match arguments(store, a, b) {
        Some(args) => fix_result(store, part, a, b, c, &args),
        None => Passed::Done,
    }
}
