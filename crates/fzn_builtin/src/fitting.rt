ghost use Rattle.std.specs.Prelude.{◌↔◌, ◌≤◌, IsTrue, All, length};
ghost use Rattle.fzn_builtin.specs.Arguments.{IsConst, FitsNeed, Fits};
ghost use Rattle.fzn_builtin.specs.Internals.{FitEach};
ghost use Rattle.fzn_builtin.specs.Builtins.{needs_of, IsArgumentCount};

use crate::arg::Arg;
use crate::builtin::{Builtin, is_argument_count, needs};
use crate::needs::Need;
use fzn_model::Term;

fn is_const(term: Term) -> bool
    ensures { IsTrue result ↔ IsConst term }
{
    match term {
        Term::Const(_) => true,
        Term::Var(_) => false,
    }
}

fn are_const(terms: &[Term]) -> bool
    ensures { IsTrue result ↔ All IsConst terms.now }
{
    terms.iter().all(|term| is_const(*term))
}

/// Whether the argument is what is needed.
#[tactic(auto, unfolding(crate::specs::Arguments::FitsNeed))]
fn fits_need(need: Need, arg: &Arg) -> bool
    ensures { IsTrue result ↔ FitsNeed need arg.now }
{
    match (need, arg) {
        (Need::IntConst, Arg::Int(term)) => is_const(*term),
        (Need::IntTerm, Arg::Int(_)) => true,
        (Need::BoolTerm, Arg::Bool(_)) => true,
        (Need::SetConst, Arg::Set(_)) => true,
        (Need::IntConsts, Arg::Ints(terms)) => are_const(terms.as_slice()),
        (Need::IntTerms, Arg::Ints(_)) => true,
        (Need::BoolConsts, Arg::Bools(terms)) => are_const(terms.as_slice()),
        (Need::BoolTerms, Arg::Bools(_)) => true,
        _ => false,
    }
}

#[tactic(auto, unfolding(crate::specs::Internals::FitEach))]
fn fit_each(needs: &[Need], args: &[Arg]) -> bool
    requires { length args.now ≤ length needs.now }
    ensures { IsTrue result ↔ FitEach needs.now args.now }
{
    needs
        .iter()
        .zip(args)
        .all(|(need, arg)| fits_need(*need, arg))
}

#[tactic(auto, using(crate::proofs::Pairs::fits_all, crate::proofs::Pairs::fits_each, crate::proofs::Pairs::fits_count))]
fn all_fit(needs: &[Need], args: &[Arg]) -> bool
    ensures { IsTrue result ↔ Fits needs.now args.now }
{
    args.len() <= needs.len() && fit_each(needs, args)
}

/// Whether the arguments fit and are a whole list: the condition of [`build`](crate::build). Takes no memory.
pub fn fits(builtin: Builtin, args: &[Arg]) -> bool
    ensures { IsTrue result ↔ (Fits (needs_of builtin) args.now × IsArgumentCount builtin (length args.now)) }
{
    all_fit(needs(builtin), args) && is_argument_count(builtin, args.len())
}
