//! `{ item ; }`
ghost use Rattle.std.specs.Prelude.{◌≡◌, ◌≤◌, length, IfOk, IfErr, None, Some};
ghost use Rattle.fzn_lexer.specs.Spots.{first};
ghost use Rattle.fzn_reader.specs.declared.parse_fault.ParseFault.TheVariants as fault;
ghost use Rattle.fzn_reader.specs.Refusals.{repeat, most};
ghost use Rattle.fzn_reader.specs.Answers.{Agrees, Gives};
ghost use Rattle.fzn_reader.specs.Annotations.{passing};
ghost use Rattle.fzn_reader.specs.Drafts.{nothing};
ghost use Rattle.fzn_reader.specs.Reading.{token_at, ends_item, predicate_at, item_at, one_item, is_end, is_end_by, items_at, model_by, reads};

use crate::array::array;
use crate::code::Code;
use crate::constraint::constraint;
use crate::draft::Draft;
use crate::parameter::parameter;
use crate::parse_fault::ParseFault;
use crate::reader::{MOST, Reader};
use crate::refused::Refused;
use crate::search::order;
use crate::solve::solve;
use crate::variable::variable;
use fzn_lexer::Seen;
use fzn_model::Model;
use std::alloc::Global;

/// Past any token.
fn token(reader: &mut Reader) -> Result<(), Refused>
    ensures { Agrees (λ _. (tt, reader.new)) result (passing token_at tt reader.old) }
{
    let Seen::Known(_) = reader.here().seen else {
        return Err(reader.refuse(Code::Syntax));
    };
    reader.advance();
    Ok(())
}

/// The rest of a predicate, up to the `;`, which stays.
#[tactic(auto, using(crate::proofs::Repeat::repeat_stop, crate::proofs::Repeat::repeat_more, crate::proofs::Repeat::repeat_refuse, crate::proofs::Repeat::repeat_none))]
fn tokens(reader: &mut Reader) -> Result<(), Refused>
    ensures { Agrees (λ _. (tt, reader.new)) result (repeat ends_item (passing token_at) most tt reader.old) }
{
    for _turn in 0..MOST {
        if reader.is_mark(b";") {
            return Ok(());
        }
        token(reader)?;
    }
    Err(reader.refuse(Code::Syntax))
}

/// A predicate, from its `predicate` on.
#[tactic(auto, unfolding(crate::specs::Reading::predicate_at))]
fn predicate(reader: &mut Reader) -> Result<(), Refused>
    ensures { Agrees (λ _. (tt, reader.new)) result (predicate_at reader.old) }
{
    reader.advance();
    let _name = reader.name()?;
    reader.mark(b"(")?;
    tokens(reader)
}

/// An item.
#[tactic(auto, unfolding(crate::specs::Reading::item_at))]
fn item<'a>(alloc: Global, reader: &mut Reader<'a>, draft: &mut Draft<'a>) -> Result<(), ParseFault>
    ensures { Gives (λ _. (draft.new, reader.new)) result (item_at draft.old reader.old) }
{
    if reader.is_word(b"predicate") {
        predicate(reader)?;
        return Ok(());
    }
    if reader.is_word(b"var") {
        return variable(alloc, reader, draft);
    }
    if reader.is_word(b"array") {
        return array(alloc, reader, draft);
    }
    if reader.is_word(b"constraint") {
        return constraint(alloc, reader, draft);
    }
    if reader.is_word(b"solve") {
        solve(reader, draft)?;
        return Ok(());
    }
    parameter(alloc, reader, draft)
}

/// An item and its `;`.
#[tactic(auto, unfolding(crate::specs::Reading::one_item))]
fn one_item<'a>(
    alloc: Global,
    reader: &mut Reader<'a>,
    draft: &mut Draft<'a>,
) -> Result<(), ParseFault>
    ensures { Gives (λ _. (draft.new, reader.new)) result (one_item draft.old reader.old) }
{
    item(alloc, reader, draft)?;
    reader.mark(b";")?;
    Ok(())
}

fn is_end(reader: &Reader) -> bool
    ensures { result ≡ is_end_by (first reader.now).seen }
{
    match reader.here().seen {
        Seen::End => true,
        Seen::Known(_) | Seen::Bad => false,
    }
}

/// All items.
#[tactic(auto, using(crate::proofs::Repeat::repeat_stop, crate::proofs::Repeat::repeat_more, crate::proofs::Repeat::repeat_fail, crate::proofs::Repeat::repeat_none), unfolding(crate::specs::Reading::items_at))]
fn items<'a>(alloc: Global, reader: &mut Reader<'a>) -> Result<Draft<'a>, ParseFault>
    ensures { Gives (λ draft. (draft, reader.new)) result (items_at reader.old) }
{
    let mut draft = Draft::new(alloc);
    for _turn in 0..MOST {
        if is_end(reader) {
            return Ok(draft);
        }
        one_item(alloc, reader, &mut draft)?;
    }
    Err(reader.refuse(Code::Syntax).into())
}

/// The model that the bytes of a FlatZinc file state (MiniZinc Handbook, FlatZinc), within the limits of this project.
///
/// `Refused` comes with the first token that shows a fault, and the least code of those that it shows; a file of more
/// than 67,108,864 bytes is `TooLong` at line 1, before all tokens. `NoMemory` comes where the model has no room.
#[tactic(auto, unfolding(crate::specs::Reading::reads))]
pub fn read_model(alloc: Global, bytes: &[u8]) -> Result<Model, ParseFault>
    ensures { Gives (λ m. m) result (reads bytes.now) }
{
    if bytes.len() > 67_108_864 {
        return Err(ParseFault::Refused(Refused {
            code: Code::TooLong,
            line: 1,
            from: 0,
            to: 0,
        }));
    }
    let mut reader = Reader::new(bytes);
    let draft = items(alloc, &mut reader)?;
    let order = order(alloc, &draft)?;
    let Some(model) = draft.finish(order) else {
        return Err(reader.refuse(Code::NoSolve).into());
    };
    Ok(model)
}
