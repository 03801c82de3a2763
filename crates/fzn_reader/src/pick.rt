//! The arguments of a search annotation: its variables, and how one of them and a part of its values is chosen.
ghost use Rattle.std.specs.Prelude.{◌≡◌, IfOk, length};
ghost use Rattle.fzn_model.specs.Limits.{PickInLimits};
ghost use Rattle.fzn_reader.specs.Search.{var_by, val_at, bare_word, choice_at, pick_at};
ghost use Rattle.fzn_reader.specs.Answers.{Agrees, Gives};

use crate::annotations::annexpr;
use crate::draft::Draft;
use crate::parse_fault::ParseFault;
use crate::reader::Reader;
use crate::refused::Refused;
use crate::search_variables::vars;
use fzn_model::{Pick, ValAt, VarBy};
use std::alloc::Global;

fn var_by(word: &[u8]) -> VarBy
    ensures { result ≡ var_by word.now }
{
    if word == b"first_fail".as_slice() {
        VarBy::FirstFail
    } else if word == b"smallest".as_slice() {
        VarBy::Smallest
    } else if word == b"largest".as_slice() {
        VarBy::Largest
    } else {
        VarBy::InputOrder
    }
}

fn val_at(word: &[u8]) -> ValAt
    ensures { result ≡ val_at word.now }
{
    if word == b"indomain_max".as_slice() {
        ValAt::Max
    } else if word == b"indomain_split".as_slice() {
        ValAt::Split
    } else {
        ValAt::Min
    }
}

/// The word in hand, where no arguments stand behind it.
fn bare_word<'a>(reader: &Reader<'a>) -> &'a [u8]
    ensures { result.now ≡ bare_word reader.now }
{
    let mut next = reader.fork();
    next.advance();
    if next.is_mark(b"(") {
        &[]
    } else {
        reader.here().text
    }
}

/// Any argument, and its one word.
#[tactic(auto, unfolding(crate::specs::Search::choice_at))]
fn choice<'a>(reader: &mut Reader<'a>) -> Result<&'a [u8], Refused>
    ensures { Agrees (λ w. (w.now, reader.new)) result (choice_at reader.old) }
{
    let word = bare_word(reader);
    annexpr(reader, 64)?;
    Ok(word)
}

/// The arguments of a search annotation.
#[tactic(auto, unfolding(crate::specs::Search::pick_at))]
pub fn pick(alloc: Global, reader: &mut Reader, draft: &Draft) -> Result<Pick, ParseFault>
    ensures value { Gives (λ p. (p, reader.new)) result (pick_at draft.now.names reader.old) }
    ensures kept { IfOk result (PickInLimits (length draft.now.doms)) }
{
    reader.mark(b"(")?;
    let vars = vars(alloc, reader, draft)?;
    reader.mark(b",")?;
    let how = choice(reader)?;
    reader.mark(b",")?;
    let at = choice(reader)?;
    Ok(Pick {
        vars,
        by: var_by(how),
        at: val_at(at),
    })
}
