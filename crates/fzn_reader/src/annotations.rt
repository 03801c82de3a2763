//! Annotations that are passed over.
ghost use Rattle.std.specs.Prelude.{◌≡◌, IfOk, codes};
ghost use Rattle.fzn_reader.specs.Refusals.{more_at, next_at, separated_at};
ghost use Rattle.fzn_reader.specs.Answers.{Agrees};
ghost use Rattle.fzn_reader.specs.Annotations.{any_number_at, ann_number_at, ann_with, annexpr_at, group_at, passing, ann_at, has_arguments, annotation_at, annotations_at};

use crate::ann_begin::{AnnBegin, ann_begins};
use crate::code::Code;
use crate::reader::{MOST, Reader};
use crate::refused::Refused;
use fzn_lexer::{Kind, Seen};

/// How deep the brackets of an annotation may stand.
const LEVELS: u8 = 64;

/// A number of any size.
#[tactic(auto, unfolding(crate::specs::Annotations::any_number_at))]
fn any_number(reader: &mut Reader) -> Result<(), Refused>
    ensures { Agrees (λ _. reader.new) result (any_number_at reader.old) }
{
    let Seen::Known(Kind::Number) = reader.here().seen else {
        return Err(reader.refuse(Code::Syntax));
    };
    reader.advance();
    Ok(())
}

/// The number in hand, and the rest of a range behind it.
#[tactic(auto, unfolding(crate::specs::Annotations::ann_number_at))]
fn ann_number(reader: &mut Reader) -> Result<(), Refused>
    ensures { Agrees (λ _. reader.new) result (ann_number_at reader.old) }
{
    reader.advance();
    if !reader.is_mark(b"..") {
        return Ok(());
    }
    reader.advance();
    any_number(reader)
}

/// An expression of an annotation, in which so many levels may be opened.
#[cycle(annotations)]
#[tactic(auto, using(crate::proofs::AnnLemmas::annexpr_is), unfolding(crate::specs::Annotations::ann_with))]
pub fn annexpr(reader: &mut Reader, levels: u8) -> Result<(), Refused>
    ensures { Agrees (λ _. reader.new) result (annexpr_at levels reader.old) }
{
    match ann_begins(reader) {
        AnnBegin::Number => ann_number(reader),
        AnnBegin::Leaf => {
            reader.advance();
            Ok(())
        }
        AnnBegin::Name => named_ann(reader, levels),
        AnnBegin::Brace => group(reader, b"}", levels),
        AnnBegin::Bracket => group(reader, b"]", levels),
        AnnBegin::Other => Err(reader.refuse(Code::Syntax)),
    }
}

/// A name, and its arguments where there are any.
#[cycle(annotations)]
#[tactic(auto, unfolding(crate::specs::Annotations::ann_with))]
fn named_ann(reader: &mut Reader, levels: u8) -> Result<(), Refused>
    ensures { Agrees (λ _. reader.new) result (ann_with (group_at levels) reader.old) }
{
    reader.name()?;
    if !reader.is_mark(b"(") {
        return Ok(());
    }
    group(reader, b")", levels)
}

/// A comma, and one member more.
#[cycle(annotations)]
#[tactic(auto, unfolding(crate::specs::Refusals::next_at))]
fn next_member(reader: &mut Reader, levels: u8) -> Result<(), Refused>
    ensures { Agrees (λ _. (tt, reader.new)) result (next_at (passing (annexpr_at levels)) tt reader.old) }
{
    reader.mark(b",")?;
    annexpr(reader, levels)
}

/// The members behind the first.
#[cycle(annotations)]
#[tactic(auto, using(crate::proofs::Repeat::repeat_stop, crate::proofs::Repeat::repeat_more, crate::proofs::Repeat::repeat_refuse, crate::proofs::Repeat::repeat_none), unfolding(crate::specs::Refusals::more_at))]
fn more_members(reader: &mut Reader, levels: u8) -> Result<(), Refused>
    ensures { Agrees (λ _. (tt, reader.new)) result (more_at (passing (annexpr_at levels)) tt reader.old) }
{
    for _turn in 0..MOST {
        if !reader.is_mark(b",") {
            return Ok(());
        }
        next_member(reader, levels)?;
    }
    Err(reader.refuse(Code::Syntax))
}

/// The members of a group, up to its closing mark, which stays.
#[cycle(annotations)]
#[tactic(auto, unfolding(crate::specs::Refusals::separated_at))]
fn members(reader: &mut Reader, close: &[u8], levels: u8) -> Result<(), Refused>
    ensures { Agrees (λ _. (tt, reader.new)) result (separated_at close.now (passing (annexpr_at levels)) tt reader.old) }
{
    if reader.is_mark(close) {
        return Ok(());
    }
    annexpr(reader, levels)?;
    more_members(reader, levels)
}

/// From an opening mark to its closing mark.
#[cycle(annotations)]
#[tactic(auto, using(crate::proofs::AnnLemmas::group_is, crate::proofs::AnnLemmas::group_none), unfolding(crate::specs::Annotations::group_with))]
fn group(reader: &mut Reader, close: &[u8], levels: u8) -> Result<(), Refused>
    ensures { Agrees (λ _. reader.new) result (group_at levels close.now reader.old) }
{
    if levels == 0 {
        return Err(reader.refuse(Code::TooDeep));
    }
    reader.advance();
    members(reader, close, levels - 1)?;
    reader.mark(close)
}

/// Past an annotation, and whether it has arguments.
#[tactic(auto, unfolding(crate::specs::Annotations::ann_at, crate::specs::Annotations::ann_with, crate::specs::Refusals::name_at))]
pub fn ann(reader: &mut Reader) -> Result<bool, Refused>
    ensures value { Agrees (λ _. reader.new) result (ann_at reader.old) }
    ensures arguments { IfOk result (λ b. b ≡ has_arguments reader.old) }
{
    reader.name()?;
    if !reader.is_mark(b"(") {
        return Ok(false);
    }
    group(reader, b")", LEVELS)?;
    Ok(true)
}

/// Past an annotation of an item on which none has an effect.
#[tactic(auto, unfolding(crate::specs::Annotations::annotation_at))]
fn passed(reader: &mut Reader) -> Result<(), Refused>
    ensures { Agrees (λ _. (tt, reader.new)) result (annotation_at (passing ann_at) tt reader.old) }
{
    reader.mark(b"::")?;
    let _arguments = ann(reader)?;
    Ok(())
}

/// Past the annotations of an item on which none has an effect.
#[tactic(auto, using(crate::proofs::Repeat::repeat_stop, crate::proofs::Repeat::repeat_more, crate::proofs::Repeat::repeat_refuse, crate::proofs::Repeat::repeat_none), unfolding(crate::specs::Annotations::annotations_at))]
pub fn annotations(reader: &mut Reader) -> Result<(), Refused>
    ensures { Agrees (λ _. (tt, reader.new)) result (annotations_at (passing ann_at) tt reader.old) }
{
    for _turn in 0..MOST {
        if !reader.is_mark(b"::") {
            return Ok(());
        }
        passed(reader)?;
    }
    Err(reader.refuse(Code::Syntax))
}
