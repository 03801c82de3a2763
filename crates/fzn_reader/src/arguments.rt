//! `[expr {, expr}]`, the arguments of a constraint.
ghost use Rattle.std.specs.Prelude.{◌≡◌, ◌≤◌, ◌+◌, [], IfOk, OnOk, length, codes, option_map};
ghost use Rattle.std.specs.List.{list_all};
ghost use Rattle.fzn_lexer.specs.Spots.{first};
ghost use Rattle.fzn_builtin.specs.Builtins.{needs_of};
ghost use Rattle.fzn_reader.specs.Refusals.{more_at, next_at, separated_at};
ghost use Rattle.fzn_reader.specs.Names.{find_name};
ghost use Rattle.fzn_reader.specs.Scalars.{is_constant};
ghost use Rattle.fzn_reader.specs.Constraints.{misfit, constants_only, fitting_list, named_list, written_list, list_arg_at, arg_by, one_arg};
ghost use Rattle.fzn_reader.specs.Answers.{Gives};
ghost use Rattle.fzn_reader.specs.Invariants.{ListInLimits, ArgsKept, ArgFits};

use crate::begin::{Begin, begins};
use crate::code::Code;
use crate::decl::Decl;
use crate::draft::Draft;
use crate::elements::elements;
use crate::parse_fault::ParseFault;
use crate::reader::{MOST, Reader, refused};
use crate::scalar::{Scalar, is_constant, read_scalar};
use crate::types::set;
use fzn_builtin::{Arg, Builtin, Need, need as need_of};
use fzn_model::{List, Term};
use std::alloc::Global;

/// The code that the token in hand shows where it begins an expression of another type, or none.
#[tactic(auto, unfolding(crate::specs::Constraints::misfit))]
fn misfit(reader: &Reader, draft: &Draft) -> Code
    ensures { result ≡ misfit draft.now.names reader.now }
{
    match begins(reader) {
        Begin::Real => Code::Float,
        Begin::Name => {
            if draft.find(reader.here().text).is_none() {
                Code::Undeclared
            } else {
                Code::WrongArguments
            }
        }
        Begin::Number | Begin::Truth(_) | Begin::Brace | Begin::Bracket => Code::WrongArguments,
        Begin::Other => Code::Syntax,
    }
}

fn are_constants(terms: &[Term]) -> bool
    ensures { result ≡ list_all is_constant terms.now }
{
    terms.iter().all(|term| is_constant(*term))
}

/// The list of an array of parameters.
fn constants_only(parameters: bool, terms: &[Term]) -> Option<&[Term]>
    ensures { option_map (λ ts. ts.now) result ≡ constants_only parameters terms.now }
{
    if parameters && are_constants(terms) {
        Some(terms)
    } else {
        None
    }
}

/// The list of an array of the type needed.
fn fitting_list(need: Scalar, decl: &Decl) -> Option<&[Term]>
    ensures { option_map (λ ts. ts.now) result ≡ fitting_list need decl.now }
{
    match (need, decl) {
        (Scalar::IntConst, Decl::Ints(parameters, terms)) => constants_only(
            *parameters,
            terms.as_slice(),
        ),
        (Scalar::IntTerm, Decl::Ints(_, terms)) => Some(terms.as_slice()),
        (Scalar::BoolConst, Decl::Bools(parameters, terms)) => constants_only(
            *parameters,
            terms.as_slice(),
        ),
        (Scalar::BoolTerm, Decl::Bools(_, terms)) => Some(terms.as_slice()),
        _ => None,
    }
}

/// The array in hand.
#[tactic(auto, using(crate::proofs::ArgLemmas::named_kept))]
fn named_list(
    alloc: Global,
    reader: &mut Reader,
    draft: &Draft,
    need: Scalar,
    used: u32,
) -> Result<(List<Term>, u32), ParseFault>
    requires { used ≤ 2000000 }
    ensures value { Gives (λ x. (x, reader.new)) result (named_list need (find_name draft.now.names (first reader.old).text) used reader.old) }
    ensures kept { IfOk result (λ x. ListInLimits 0 draft.now.doms need x.0) }
    ensures used { IfOk result (λ x. x.1 ≤ 2000000) }
{
    let here = reader.here();
    let Some(decl) = draft.find(here.text) else {
        return Err(refused(Code::Undeclared, here).into());
    };
    let Some(terms) = fitting_list(need, decl) else {
        return Err(refused(Code::WrongArguments, here).into());
    };
    reader.advance();
    let copy = Vec::from_slice(alloc, terms)?;
    Ok((List::from_vec(copy), used))
}

fn with_more(terms: &[Term], used: u32) -> u32
    requires { used + length terms.now ≤ 2000000 }
    ensures { result ≡ used + length terms.now }
{
    used + terms.len() as u32
}

/// A list that is written out, from its `[` on.
#[tactic(auto, using(crate::proofs::ArgLemmas::written_kept), unfolding(crate::specs::Constraints::written_list))]
fn written_list(
    alloc: Global,
    reader: &mut Reader,
    draft: &Draft,
    need: Scalar,
    used: u32,
) -> Result<(List<Term>, u32), ParseFault>
    requires { used ≤ 2000000 }
    ensures value { Gives (λ x. (x, reader.new)) result (written_list need draft.now.names used reader.old) }
    ensures kept { IfOk result (λ x. ListInLimits 0 draft.now.doms need x.0) }
    ensures used { IfOk result (λ x. x.1 ≤ 2000000) }
{
    reader.advance();
    let terms = elements(alloc, reader, draft, used, need)?;
    reader.mark(b"]")?;
    let count = with_more(terms.as_slice(), used);
    Ok((terms, count))
}

/// A list of ints or bools.
#[tactic(auto, unfolding(crate::specs::Constraints::list_arg_at))]
fn list_arg(
    alloc: Global,
    reader: &mut Reader,
    draft: &Draft,
    need: Scalar,
    used: u32,
) -> Result<(List<Term>, u32), ParseFault>
    requires { used ≤ 2000000 }
    ensures value { Gives (λ x. (x, reader.new)) result (list_arg_at need draft.now.names used reader.old) }
    ensures kept { IfOk result (λ x. ListInLimits 0 draft.now.doms need x.0) }
    ensures used { IfOk result (λ x. x.1 ≤ 2000000) }
{
    match begins(reader) {
        Begin::Bracket => written_list(alloc, reader, draft, need, used),
        Begin::Name => named_list(alloc, reader, draft, need, used),
        Begin::Number | Begin::Real | Begin::Truth(_) | Begin::Brace | Begin::Other => {
            Err(reader.refuse(misfit(reader, draft)).into())
        }
    }
}

/// An argument of the kind needed, and how many elements stood in lists by then.
#[tactic(auto, using(crate::proofs::ArgLemmas::int_const, crate::proofs::ArgLemmas::int_term, crate::proofs::ArgLemmas::bool_term, crate::proofs::ArgLemmas::set_const, crate::proofs::ArgLemmas::int_consts, crate::proofs::ArgLemmas::int_terms, crate::proofs::ArgLemmas::bool_consts, crate::proofs::ArgLemmas::bool_terms))]
fn argument(
    alloc: Global,
    reader: &mut Reader,
    draft: &Draft,
    need: Need,
    used: u32,
) -> Result<(Arg, u32), ParseFault>
    requires { used ≤ 2000000 }
    ensures value { Gives (λ x. (x, reader.new)) result (arg_by need draft.now.names used reader.old) }
    ensures kept { IfOk result (λ x. ArgFits draft.now.doms need x.0) }
    ensures used { IfOk result (λ x. x.1 ≤ 2000000) }
{
    match need {
        Need::IntConst => {
            let term = read_scalar(reader, draft, Scalar::IntConst)?;
            Ok((Arg::Int(term), used))
        }
        Need::IntTerm => {
            let term = read_scalar(reader, draft, Scalar::IntTerm)?;
            Ok((Arg::Int(term), used))
        }
        Need::BoolTerm => {
            let term = read_scalar(reader, draft, Scalar::BoolTerm)?;
            Ok((Arg::Bool(term), used))
        }
        Need::SetConst => {
            let value = set(alloc, reader, draft, true)?;
            Ok((Arg::Set(value), used))
        }
        Need::IntConsts => {
            let (terms, count) = list_arg(alloc, reader, draft, Scalar::IntConst, used)?;
            Ok((Arg::Ints(terms), count))
        }
        Need::IntTerms => {
            let (terms, count) = list_arg(alloc, reader, draft, Scalar::IntTerm, used)?;
            Ok((Arg::Ints(terms), count))
        }
        Need::BoolConsts => {
            let (terms, count) = list_arg(alloc, reader, draft, Scalar::BoolConst, used)?;
            Ok((Arg::Bools(terms), count))
        }
        Need::BoolTerms => {
            let (terms, count) = list_arg(alloc, reader, draft, Scalar::BoolTerm, used)?;
            Ok((Arg::Bools(terms), count))
        }
    }
}

/// One argument more.
#[tactic(auto, using(crate::proofs::ArgLemmas::args_push), unfolding(crate::specs::Constraints::one_arg))]
fn one_arg(
    alloc: Global,
    reader: &mut Reader,
    draft: &Draft,
    builtin: Builtin,
    args: &mut List<Arg>,
    used: &mut u32,
) -> Result<(), ParseFault>
    requires kept { ArgsKept draft.now.doms (needs_of builtin) (args.old, used.old) }
    requires few { length args.old ≤ 67108865 }
    ensures value { Gives (λ _. ((args.new, used.new), reader.new)) result (one_arg builtin draft.now.names (args.old, used.old) reader.old) }
    ensures kept { OnOk result (ArgsKept draft.now.doms (needs_of builtin) (args.new, used.new)) }
    ensures count { OnOk result (length args.new ≡ length args.old + 1) }
{
    let Some(need) = need_of(builtin, args.as_slice().len() as u32) else {
        return Err(reader.refuse(misfit(reader, draft)).into());
    };
    let (arg, count) = argument(alloc, reader, draft, need, *used)?;
    args.push(arg)?;
    *used = count;
    Ok(())
}

/// A comma, and one argument more.
#[tactic(auto, unfolding(crate::specs::Refusals::next_at))]
fn next_arg(
    alloc: Global,
    reader: &mut Reader,
    draft: &Draft,
    builtin: Builtin,
    args: &mut List<Arg>,
    used: &mut u32,
) -> Result<(), ParseFault>
    requires kept { ArgsKept draft.now.doms (needs_of builtin) (args.old, used.old) }
    requires few { length args.old ≤ 67108865 }
    ensures value { Gives (λ _. ((args.new, used.new), reader.new)) result (next_at (one_arg builtin draft.now.names) (args.old, used.old) reader.old) }
    ensures kept { OnOk result (ArgsKept draft.now.doms (needs_of builtin) (args.new, used.new)) }
    ensures count { OnOk result (length args.new ≡ length args.old + 1) }
{
    reader.mark(b",")?;
    one_arg(alloc, reader, draft, builtin, args, used)
}

/// The arguments behind the first.
#[tactic(auto, using(crate::proofs::Repeat::repeat_stop, crate::proofs::Repeat::repeat_more, crate::proofs::Repeat::repeat_fail, crate::proofs::Repeat::repeat_none), unfolding(crate::specs::Refusals::more_at))]
fn more_args(
    alloc: Global,
    reader: &mut Reader,
    draft: &Draft,
    builtin: Builtin,
    args: &mut List<Arg>,
    used: &mut u32,
) -> Result<(), ParseFault>
    requires kept { ArgsKept draft.now.doms (needs_of builtin) (args.old, used.old) }
    requires few { length args.old ≤ 1 }
    ensures value { Gives (λ _. ((args.new, used.new), reader.new)) result (more_at (one_arg builtin draft.now.names) (args.old, used.old) reader.old) }
    ensures kept { OnOk result (ArgsKept draft.now.doms (needs_of builtin) (args.new, used.new)) }
    ensures few { OnOk result (length args.new ≤ 67108866) }
{
    for _turn in 0..MOST {
        if !reader.is_mark(b",") {
            return Ok(());
        }
        next_arg(alloc, reader, draft, builtin, args, used)?;
    }
    Err(reader.refuse(Code::Syntax).into())
}

/// The arguments, up to the `)`, which stays.
#[tactic(auto, unfolding(crate::specs::Refusals::separated_at))]
pub fn args(
    alloc: Global,
    reader: &mut Reader,
    draft: &Draft,
    builtin: Builtin,
    used: &mut u32,
) -> Result<List<Arg>, ParseFault>
    requires { used.old ≤ 2000000 }
    ensures value { Gives (λ args. ((args, used.new), reader.new)) result (separated_at (codes ")") (one_arg builtin draft.now.names) ([], used.old) reader.old) }
    ensures kept { IfOk result (λ args. ArgsKept draft.now.doms (needs_of builtin) (args, used.new)) }
    ensures few { IfOk result (λ args. length args ≤ 67108866) }
{
    let mut args = List::new(alloc);
    if reader.is_mark(b")") {
        return Ok(args);
    }
    one_arg(alloc, reader, draft, builtin, &mut args, used)?;
    more_args(alloc, reader, draft, builtin, &mut args, used)?;
    Ok(args)
}
