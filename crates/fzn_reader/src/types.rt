//! Types, new names, and expressions of sets.
ghost use Rattle.std.specs.Prelude.{◌≡◌, [], IfOk, OnOk, IsTrue, None, List, ℤ};
ghost use Rattle.fzn_model.specs.Limits.{IsValue};
ghost use Rattle.fzn_reader.specs.declared.begin.Begin.TheVariants as begin;
ghost use Rattle.fzn_reader.specs.Exprs.{begins};
ghost use Rattle.fzn_reader.specs.Names.{find_name};
ghost use Rattle.fzn_reader.specs.Answers.{Agrees, Gives};
ghost use Rattle.fzn_reader.specs.Invariants.{SetKept, IsVarType};
ghost use Rattle.fzn_reader.specs.Types.{partype_at, set_type_by, vartype_at, new_name_at, set_by, set_at};

use crate::begin::{Begin, begins};
use crate::code::Code;
use crate::decl::Decl;
use crate::draft::Draft;
use crate::numbers::number_in;
use crate::par_type::ParType;
use crate::parse_fault::ParseFault;
use crate::reader::{Reader, refused};
use crate::refused::Refused;
use crate::sets::{braces, number, range, range_set};
use crate::var_type::VarType;
use fzn_model::{LARGEST_VALUE, List, Runs};
use std::alloc::{AllocError, Global};

/// The type of a parameter.
#[tactic(auto, unfolding(crate::specs::Types::partype_at))]
pub fn partype(reader: &mut Reader) -> Result<ParType, Refused>
    ensures { Agrees (λ ty. (ty, reader.new)) result (partype_at reader.old) }
{
    if reader.is_word(b"bool") {
        reader.advance();
        return Ok(ParType::Bool);
    }
    if reader.is_word(b"int") {
        reader.advance();
        return Ok(ParType::Int);
    }
    if reader.is_word(b"set") {
        reader.advance();
        reader.word(b"of")?;
        reader.word(b"int")?;
        return Ok(ParType::Set);
    }
    if reader.is_word(b"float") {
        return Err(reader.refuse(Code::Float));
    }
    Err(reader.refuse(Code::Syntax))
}

/// A range or a set in braces.
fn set_type(alloc: Global, reader: &mut Reader) -> Result<VarType, ParseFault>
    ensures value { Gives (λ ty. (ty, reader.new)) result (set_type_by (begins reader.old) reader.old) }
    ensures kept { IfOk result IsVarType }
{
    match begins(reader) {
        Begin::Brace => {
            let set = braces(alloc, reader)?;
            Ok(VarType { set, truth: false })
        }
        Begin::Number
        | Begin::Real
        | Begin::Truth(_)
        | Begin::Name
        | Begin::Bracket
        | Begin::Other => {
            let set = range(alloc, reader)?;
            Ok(VarType { set, truth: false })
        }
    }
}

/// The type of a variable.
#[tactic(auto, unfolding(crate::specs::Types::vartype_at))]
pub fn vartype(alloc: Global, reader: &mut Reader) -> Result<VarType, ParseFault>
    ensures value { Gives (λ ty. (ty, reader.new)) result (vartype_at reader.old) }
    ensures kept { IfOk result IsVarType }
{
    if reader.is_word(b"bool") {
        reader.advance();
        let set = range_set(alloc, 0, 1)?;
        return Ok(VarType { set, truth: true });
    }
    if reader.is_word(b"int") {
        reader.advance();
        let set = range_set(alloc, -LARGEST_VALUE, LARGEST_VALUE)?;
        return Ok(VarType { set, truth: false });
    }
    if reader.is_word(b"float") {
        return Err(reader.refuse(Code::Float).into());
    }
    if reader.is_word(b"set") {
        return Err(reader.refuse(Code::SetVar).into());
    }
    set_type(alloc, reader)
}

/// A name that isn't declared yet.
#[tactic(auto, unfolding(crate::specs::Types::new_name_at))]
pub fn new_name<'a>(reader: &mut Reader<'a>, draft: &Draft, room: bool) -> Result<&'a [u8], Refused>
    ensures value { Agrees (λ x. (x.now, reader.new)) result (new_name_at room draft.now.names reader.old) }
    ensures fresh { IfOk result (λ x. find_name draft.now.names x.now ≡ None) }
    ensures room { OnOk result (IsTrue room) }
{
    let here = reader.here();
    let name = reader.name()?;
    if draft.find(name).is_some() {
        return Err(refused(Code::DeclaredTwice, here));
    }
    if !room {
        return Err(refused(Code::TooMany, here));
    }
    Ok(name)
}

fn copied_set(alloc: Global, set: &Runs) -> Result<Runs, AllocError>
    ensures { IfOk result (λ copy. copy ≡ set.now) }
{
    let runs = Vec::from_slice(alloc, set.runs.as_slice())?;
    Ok(Runs {
        runs: List::from_vec(runs),
    })
}

/// The range that the number in hand begins.
fn range_set_here(alloc: Global, reader: &mut Reader, room: bool) -> Result<Runs, ParseFault>
    ensures value { Gives (λ set. (set, reader.new)) result (set_by begin.Number room [] reader.old) }
    ensures kept { IfOk result SetKept }
    ensures room { OnOk result (IsTrue room) }
{
    let here = reader.here();
    reader.advance();
    if !reader.is_mark(b"..") {
        return Err(refused(Code::WrongArguments, here).into());
    }
    let Some(low) = number_in(here.text) else {
        return Err(refused(Code::OutOfRange, here).into());
    };
    if !room {
        return Err(refused(Code::TooMany, here).into());
    }
    reader.mark(b"..")?;
    let high = number(reader)?;
    let set = range_set(alloc, low, high)?;
    Ok(set)
}

/// The set that the name in hand stands for.
fn named_set(
    alloc: Global,
    reader: &mut Reader,
    draft: &Draft,
    room: bool,
) -> Result<Runs, ParseFault>
    ensures value { Gives (λ set. (set, reader.new)) result (set_by begin.Name room draft.now.names reader.old) }
    ensures kept { IfOk result SetKept }
    ensures room { OnOk result (IsTrue room) }
{
    match draft.find(reader.here().text) {
        None => Err(reader.refuse(Code::Undeclared).into()),
        Some(Decl::Set(set)) => {
            if !room {
                return Err(reader.refuse(Code::TooMany).into());
            }
            let copy = copied_set(alloc, set)?;
            reader.advance();
            Ok(copy)
        }
        Some(_) => Err(reader.refuse(Code::WrongArguments).into()),
    }
}

/// A set of ints; as an element of a list, where there is room for one.
#[tactic(auto, unfolding(crate::specs::Types::set_at))]
pub fn set(
    alloc: Global,
    reader: &mut Reader,
    draft: &Draft,
    room: bool,
) -> Result<Runs, ParseFault>
    ensures value { Gives (λ set. (set, reader.new)) result (set_at room draft.now.names reader.old) }
    ensures kept { IfOk result SetKept }
    ensures room { OnOk result (IsTrue room) }
{
    match begins(reader) {
        Begin::Number => range_set_here(alloc, reader, room),
        Begin::Real => Err(reader.refuse(Code::Float).into()),
        Begin::Truth(_) | Begin::Bracket => Err(reader.refuse(Code::WrongArguments).into()),
        Begin::Name => named_set(alloc, reader, draft, room),
        Begin::Brace => {
            if !room {
                return Err(reader.refuse(Code::TooMany).into());
            }
            braces(alloc, reader)
        }
        Begin::Other => Err(reader.refuse(Code::Syntax).into()),
    }
}
