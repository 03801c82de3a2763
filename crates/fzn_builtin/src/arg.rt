ghost use Rattle.std.specs.Prelude.{◌≡◌};
ghost use Rattle.fzn_builtin.specs.Arguments.{number, term_at, terms_at, set_at, IsConst};
ghost use Rattle.fzn_builtin.specs.Reading.{HasTerm, HasTerms, HasSet};

use fzn_model::{List, Runs, Term};

/// An argument: an int, a bool, a set of ints, or a list of ints or bools. Constants are terms too.
#[derive(Debug, Drop)]
pub enum Arg {
    Int(Term),
    Bool(Term),
    Set(Runs),
    Ints(List<Term>),
    Bools(List<Term>),
}

/// The number of a constant.
pub(crate) fn number(term: Term) -> i64
    requires { IsConst term }
    ensures { result ≡ number term }
{
    match term {
        Term::Const(number) => number,
        Term::Var(_) => unreachable!(),
    }
}

/// The int or bool in the place.
#[tactic(auto, unfolding(crate::specs::Arguments::term_at, crate::specs::Reading::HasTerm))]
pub(crate) fn term_at(args: &[Arg], place: usize) -> Term
    requires { HasTerm args.now place }
    ensures { result ≡ term_at args.now place }
{
    match &args[place] {
        Arg::Int(term) | Arg::Bool(term) => *term,
        Arg::Set(_) | Arg::Ints(_) | Arg::Bools(_) => unreachable!(),
    }
}

/// The list of ints or bools in the place.
#[tactic(auto, unfolding(crate::specs::Arguments::terms_at, crate::specs::Reading::HasTerms))]
pub(crate) fn terms_at(args: &[Arg], place: usize) -> &[Term]
    requires { HasTerms args.now place }
    ensures { result.now ≡ terms_at args.now place }
{
    match &args[place] {
        Arg::Ints(terms) | Arg::Bools(terms) => terms.as_slice(),
        Arg::Int(_) | Arg::Bool(_) | Arg::Set(_) => unreachable!(),
    }
}

/// The set in the place.
#[tactic(auto, unfolding(crate::specs::Arguments::set_at, crate::specs::Reading::HasSet))]
pub(crate) fn set_at(args: &[Arg], place: usize) -> &Runs
    requires { HasSet args.now place }
    ensures { result.now ≡ set_at args.now place }
{
    match &args[place] {
        Arg::Set(set) => set,
        Arg::Int(_) | Arg::Bool(_) | Arg::Ints(_) | Arg::Bools(_) => unreachable!(),
    }
}
