ghost use Rattle.std.specs.Prelude.{◌≡◌, List, [], IfOk, IfSome, OnOk, IsTrue, ℤ};
ghost use Rattle.fzn_model.specs.Limits.{IsValue};
ghost use Rattle.fzn_lexer.specs.Spots.{first};
ghost use Rattle.fzn_reader.specs.declared.begin.Begin.TheVariants as begin;
ghost use Rattle.fzn_reader.specs.Scalars.{takes_numbers, is_constant, constant_only, fitting_term, scalar_by, scalar_at, limited};
ghost use Rattle.fzn_reader.specs.Answers.{Agrees};
ghost use Rattle.fzn_reader.specs.Invariants.{DeclKept, ScalarKept};

use crate::begin::{Begin, begins};
use crate::code::Code;
use crate::decl::Decl;
use crate::draft::Draft;
use crate::numbers::number_in;
use crate::reader::{Reader, refused};
use crate::refused::Refused;
use fzn_model::Term;

/// The type that a place needs, of those with one value: an int or a bool; in a place for constants no variable stands.
#[derive(Clone, Copy, Debug, PartialEq, Eq)]
pub enum Scalar {
    IntConst,
    IntTerm,
    BoolConst,
    BoolTerm,
}

fn takes_numbers(scalar: Scalar) -> bool
    ensures { result ≡ takes_numbers scalar }
{
    match scalar {
        Scalar::IntConst | Scalar::IntTerm => true,
        Scalar::BoolConst | Scalar::BoolTerm => false,
    }
}

pub fn is_constant(term: Term) -> bool
    ensures { result ≡ is_constant term }
{
    match term {
        Term::Const(_) => true,
        Term::Var(_) => false,
    }
}

fn constant_only(term: Term) -> Option<Term>
    ensures { result ≡ constant_only term }
{
    if is_constant(term) { Some(term) } else { None }
}

/// What a declaration gives for the place.
#[tactic(auto, using(crate::proofs::ScalarLemmas::fitting_kept))]
fn fitting_term(scalar: Scalar, decl: &Decl) -> Option<Term>
    ensures value { result ≡ fitting_term scalar decl.now }
    ensures kept { (ds : List (List (ℤ × ℤ))) → DeclKept ds decl.now → IfSome result (ScalarKept ds scalar) }
{
    match (scalar, decl) {
        (Scalar::IntConst, Decl::Int(term)) => constant_only(*term),
        (Scalar::IntTerm, Decl::Int(term)) => Some(*term),
        (Scalar::BoolConst, Decl::Bool(term)) => constant_only(*term),
        (Scalar::BoolTerm, Decl::Bool(term)) => Some(*term),
        _ => None,
    }
}

/// The number in hand.
fn number_term(reader: &mut Reader, scalar: Scalar) -> Result<Term, Refused>
    ensures value { Agrees (λ t. (t, reader.new)) result (scalar_by begin.Number scalar [] reader.old) }
    ensures kept { (ds : List (List (ℤ × ℤ))) → IfOk result (ScalarKept ds scalar) }
{
    let here = reader.here();
    reader.advance();
    if !takes_numbers(scalar) || reader.is_mark(b"..") {
        return Err(refused(Code::WrongArguments, here));
    }
    match number_in(here.text) {
        Some(number) => Ok(Term::Const(number)),
        None => Err(refused(Code::OutOfRange, here)),
    }
}

/// The name in hand.
fn named_term(reader: &mut Reader, draft: &Draft, scalar: Scalar) -> Result<Term, Refused>
    ensures value { Agrees (λ t. (t, reader.new)) result (scalar_by begin.Name scalar draft.now.names reader.old) }
    ensures kept { IfOk result (ScalarKept draft.now.doms scalar) }
{
    let here = reader.here();
    let Some(decl) = draft.find(here.text) else {
        return Err(refused(Code::Undeclared, here));
    };
    let Some(term) = fitting_term(scalar, decl) else {
        return Err(refused(Code::WrongArguments, here));
    };
    reader.advance();
    Ok(term)
}

/// The `true` or `false` in hand.
fn truth_term(reader: &mut Reader, scalar: Scalar, truth: bool) -> Result<Term, Refused>
    ensures value { Agrees (λ t. (t, reader.new)) result (scalar_by (begin.Truth truth) scalar [] reader.old) }
    ensures kept { (ds : List (List (ℤ × ℤ))) → IfOk result (ScalarKept ds scalar) }
{
    if takes_numbers(scalar) {
        return Err(reader.refuse(Code::WrongArguments));
    }
    reader.advance();
    Ok(Term::Const(i64::from(truth)))
}

/// An int or a bool.
#[tactic(auto, unfolding(crate::specs::Scalars::scalar_at))]
pub fn read_scalar(reader: &mut Reader, draft: &Draft, scalar: Scalar) -> Result<Term, Refused>
    ensures value { Agrees (λ t. (t, reader.new)) result (scalar_at scalar draft.now.names reader.old) }
    ensures kept { IfOk result (ScalarKept draft.now.doms scalar) }
{
    match begins(reader) {
        Begin::Number => number_term(reader, scalar),
        Begin::Real => Err(reader.refuse(Code::Float)),
        Begin::Truth(truth) => truth_term(reader, scalar, truth),
        Begin::Name => named_term(reader, draft, scalar),
        Begin::Brace | Begin::Bracket => Err(reader.refuse(Code::WrongArguments)),
        Begin::Other => Err(reader.refuse(Code::Syntax)),
    }
}

/// An element of a list, where there is room for one.
pub fn limited_scalar(
    reader: &mut Reader,
    draft: &Draft,
    need: Scalar,
    room: bool,
) -> Result<Term, Refused>
    ensures value { Agrees (λ t. (t, reader.new)) result (limited room reader.old (scalar_at need draft.now.names reader.old)) }
    ensures kept { IfOk result (ScalarKept draft.now.doms need) }
    ensures room { OnOk result (IsTrue room) }
{
    let here = reader.here();
    let term = read_scalar(reader, draft, need)?;
    if !room {
        return Err(refused(Code::TooMany, here));
    }
    Ok(term)
}
