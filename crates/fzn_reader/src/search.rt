//! Search annotations, read behind the last item.
ghost use Rattle.std.specs.Prelude.{◌≡◌, IfOk, IfErr, OnOk, All, length, is_ok};
ghost use Rattle.fzn_model.specs.Limits.{PickInLimits};
ghost use Rattle.fzn_reader.specs.declared.parse_fault.ParseFault.TheVariants as fault;
ghost use Rattle.fzn_reader.specs.Refusals.{repeat, most};
ghost use Rattle.fzn_reader.specs.Lists.{ends_list};
ghost use Rattle.fzn_reader.specs.Search.{pick_at, with_pick, opening_at, one_search, search_list_at, one_pick, picks_with, picks_at, order_of};
ghost use Rattle.fzn_reader.specs.Answers.{Agrees, Gives};

use crate::annotations::ann;
use crate::code::Code;
use crate::draft::Draft;
use crate::parse_fault::ParseFault;
use crate::pick::pick;
use crate::reader::{MOST, Reader};
use crate::refused::Refused;
use crate::solve::is_search;
use fzn_model::{List, Pick};
use std::alloc::Global;

/// The pick of the arguments behind others, where they have this form.
#[tactic(auto, using(crate::proofs::SearchLemmas::picks_push))]
fn add_pick(
    alloc: Global,
    mut reader: Reader,
    draft: &Draft,
    done: &mut List<Pick>,
) -> Result<(), ParseFault>
    ensures value { OnOk result (done.new ≡ with_pick done.old (pick_at draft.now.names reader.entry)) }
    ensures kept { OnOk result (All (PickInLimits (length draft.now.doms)) done.old → All (PickInLimits (length draft.now.doms)) done.new) }
    ensures err { IfErr result (λ e. e ≡ fault.NoMemory) }
{
    match pick(alloc, &mut reader, draft) {
        Ok(pick) => {
            done.push(pick)?;
            Ok(())
        }
        Err(ParseFault::Refused(_)) => Ok(()),
        Err(ParseFault::NoMemory) => Err(ParseFault::NoMemory),
    }
}

/// `( [`
#[tactic(auto, unfolding(crate::specs::Search::opening_at))]
fn opening(reader: &mut Reader) -> Result<(), Refused>
    ensures { Agrees (λ _. reader.new) result (opening_at reader.old) }
{
    reader.mark(b"(")?;
    reader.mark(b"[")
}

/// Past one search annotation more of a list, and the comma behind it.
#[tactic(auto, unfolding(crate::specs::Search::one_search))]
fn one_search(reader: &mut Reader) -> Result<(), Refused>
    ensures { Agrees (λ _. (tt, reader.new)) result (one_search tt reader.old) }
{
    if !is_search(reader.here().text) {
        return Err(reader.refuse(Code::Syntax));
    }
    let _arguments = ann(reader)?;
    reader.separator(b"]")
}

/// Past the search annotations of a list, up to its `]`, which stays.
#[tactic(auto, using(crate::proofs::Repeat::repeat_stop, crate::proofs::Repeat::repeat_more, crate::proofs::Repeat::repeat_refuse, crate::proofs::Repeat::repeat_none))]
fn searches(reader: &mut Reader) -> Result<(), Refused>
    ensures { Agrees (λ _. (tt, reader.new)) result (repeat ends_list one_search most tt reader.old) }
{
    for _turn in 0..MOST {
        if reader.is_mark(b"]") {
            return Ok(());
        }
        one_search(reader)?;
    }
    Err(reader.refuse(Code::Syntax))
}

/// Past a list of search annotations as the one argument.
#[tactic(auto, unfolding(crate::specs::Search::search_list_at))]
fn search_list(reader: &mut Reader) -> Result<(), Refused>
    ensures { Agrees (λ _. reader.new) result (search_list_at reader.old) }
{
    opening(reader)?;
    searches(reader)?;
    reader.mark(b"]")?;
    reader.mark(b")")
}

/// Whether the one argument is a list of search annotations.
fn is_search_list(mut reader: Reader) -> bool
    ensures { result ≡ is_ok (search_list_at reader.entry) }
{
    search_list(&mut reader).is_ok()
}

/// The picks of the search annotation in hand, behind others.
#[cycle(search)]
#[tactic(auto, using(crate::proofs::SearchLemmas::picks_is, crate::proofs::SearchLemmas::picks_none))]
fn picks(
    alloc: Global,
    reader: &Reader,
    draft: &Draft,
    levels: u8,
    done: &mut List<Pick>,
) -> Result<(), ParseFault>
    ensures value { Gives (λ _. done.new) result (picks_at levels draft.now.names done.old reader.now) }
    ensures kept { OnOk result (All (PickInLimits (length draft.now.doms)) done.old → All (PickInLimits (length draft.now.doms)) done.new) }
{
    if levels == 0 {
        return Ok(());
    }
    let mut arguments = reader.fork();
    arguments.advance();
    if reader.here().text != b"seq_search".as_slice() {
        return add_pick(alloc, arguments, draft, done);
    }
    if !is_search_list(arguments.fork()) {
        return Ok(());
    }
    list_picks(alloc, &mut arguments, draft, levels - 1, done)
}

/// The picks of a list of search annotations, behind others.
#[cycle(search)]
#[tactic(auto, unfolding(crate::specs::Search::picks_with))]
fn list_picks(
    alloc: Global,
    reader: &mut Reader,
    draft: &Draft,
    levels: u8,
    done: &mut List<Pick>,
) -> Result<(), ParseFault>
    ensures value { Gives (λ _. done.new) result (picks_with (picks_at levels draft.now.names) done.old reader.old) }
    ensures kept { OnOk result (All (PickInLimits (length draft.now.doms)) done.old → All (PickInLimits (length draft.now.doms)) done.new) }
{
    opening(reader)?;
    all_picks(alloc, reader, draft, levels, done)
}

/// The picks of the members of a list, up to its `]`.
#[cycle(search)]
#[tactic(auto, using(crate::proofs::Repeat::repeat_stop, crate::proofs::Repeat::repeat_more, crate::proofs::Repeat::repeat_fail, crate::proofs::Repeat::repeat_none))]
fn all_picks(
    alloc: Global,
    reader: &mut Reader,
    draft: &Draft,
    levels: u8,
    done: &mut List<Pick>,
) -> Result<(), ParseFault>
    ensures value { Gives (λ _. (done.new, reader.new)) result (repeat ends_list (one_pick (picks_at levels draft.now.names)) most done.old reader.old) }
    ensures kept { OnOk result (All (PickInLimits (length draft.now.doms)) done.old → All (PickInLimits (length draft.now.doms)) done.new) }
{
    for _turn in 0..MOST {
        if reader.is_mark(b"]") {
            return Ok(());
        }
        one_pick(alloc, reader, draft, levels, done)?;
    }
    Err(reader.refuse(Code::Syntax).into())
}

/// The picks of one member more, and the comma behind it.
#[cycle(search)]
#[tactic(auto, unfolding(crate::specs::Search::one_pick))]
fn one_pick(
    alloc: Global,
    reader: &mut Reader,
    draft: &Draft,
    levels: u8,
    done: &mut List<Pick>,
) -> Result<(), ParseFault>
    ensures value { Gives (λ _. (done.new, reader.new)) result (one_pick (picks_at levels draft.now.names) done.old reader.old) }
    ensures kept { OnOk result (All (PickInLimits (length draft.now.doms)) done.old → All (PickInLimits (length draft.now.doms)) done.new) }
{
    picks(alloc, reader, draft, levels, done)?;
    let _arguments = ann(reader)?;
    reader.separator(b"]")?;
    Ok(())
}

/// The picks of the first search annotation of `solve`.
#[tactic(auto, unfolding(crate::specs::Search::order_of))]
pub fn order(alloc: Global, draft: &Draft) -> Result<List<Pick>, ParseFault>
    ensures value { IfOk result (λ picks. picks ≡ order_of draft.now.names draft.now.search) }
    ensures kept { IfOk result (All (PickInLimits (length draft.now.doms))) }
    ensures err { IfErr result (λ e. e ≡ fault.NoMemory) }
{
    let mut done = List::new(alloc);
    let Some(reader) = draft.search() else {
        return Ok(done);
    };
    match picks(alloc, &reader, draft, 64, &mut done) {
        Ok(()) => Ok(done),
        Err(ParseFault::Refused(_)) => Ok(List::new(alloc)),
        Err(ParseFault::NoMemory) => Err(ParseFault::NoMemory),
    }
}
