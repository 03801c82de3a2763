//! `solve {:: ann} ( satisfy | minimize expr | maximize expr )`
ghost use Rattle.std.specs.Prelude.{◌≡◌, None, IfOk, length};
ghost use Rattle.fzn_model.specs.Limits.{GoalInLimits};
ghost use Rattle.fzn_reader.specs.Answers.{Agrees};
ghost use Rattle.fzn_reader.specs.Annotations.{annotation_at, annotations_at};
ghost use Rattle.fzn_reader.specs.Solving.{is_search, first_search, solve_ann, goal_at, solve_at};

use crate::annotations::ann;
use crate::code::Code;
use crate::draft::Draft;
use crate::reader::{MOST, Reader};
use crate::refused::Refused;
use crate::scalar::{Scalar, read_scalar};
use fzn_model::Goal;

/// Whether this names a search annotation.
pub fn is_search(name: &[u8]) -> bool
    ensures { result ≡ is_search name.now }
{
    name == b"int_search".as_slice()
        || name == b"bool_search".as_slice()
        || name == b"seq_search".as_slice()
}

/// A reader at the token in hand, where a search annotation begins there.
fn search_here<'a>(reader: &Reader<'a>) -> Option<Reader<'a>>
    ensures { result ≡ first_search None reader.now }
{
    if is_search(reader.here().text) {
        Some(reader.fork())
    } else {
        None
    }
}

/// An annotation of `solve`.
#[tactic(auto, unfolding(crate::specs::Annotations::annotation_at, crate::specs::Solving::solve_ann))]
fn solve_ann<'a>(reader: &mut Reader<'a>, found: &mut Option<Reader<'a>>) -> Result<(), Refused>
    ensures { Agrees (λ _. (found.new, reader.new)) result (annotation_at solve_ann found.old reader.old) }
{
    reader.mark(b"::")?;
    if found.is_none() {
        *found = search_here(reader);
    }
    let _arguments = ann(reader)?;
    Ok(())
}

/// The annotations of `solve`, and a reader at the first search annotation.
#[tactic(auto, using(crate::proofs::Repeat::repeat_stop, crate::proofs::Repeat::repeat_more, crate::proofs::Repeat::repeat_refuse, crate::proofs::Repeat::repeat_none), unfolding(crate::specs::Annotations::annotations_at))]
fn solve_anns<'a>(reader: &mut Reader<'a>) -> Result<Option<Reader<'a>>, Refused>
    ensures { Agrees (λ found. (found, reader.new)) result (annotations_at solve_ann None reader.old) }
{
    let mut found = None;
    for _turn in 0..MOST {
        if !reader.is_mark(b"::") {
            return Ok(found);
        }
        solve_ann(reader, &mut found)?;
    }
    Err(reader.refuse(Code::Syntax))
}

/// What is sought.
#[tactic(auto, unfolding(crate::specs::Solving::goal_at))]
fn goal(reader: &mut Reader, draft: &Draft) -> Result<Goal, Refused>
    ensures value { Agrees (λ g. (g, reader.new)) result (goal_at draft.now.names reader.old) }
    ensures kept { IfOk result (GoalInLimits (length draft.now.doms)) }
{
    if reader.is_word(b"satisfy") {
        reader.advance();
        return Ok(Goal::Satisfy);
    }
    if reader.is_word(b"minimize") {
        reader.advance();
        let term = read_scalar(reader, draft, Scalar::IntTerm)?;
        return Ok(Goal::Minimise(term));
    }
    if reader.is_word(b"maximize") {
        reader.advance();
        let term = read_scalar(reader, draft, Scalar::IntTerm)?;
        return Ok(Goal::Maximise(term));
    }
    Err(reader.refuse(Code::Syntax))
}

/// What is sought, once; from its `solve` on.
#[tactic(auto, unfolding(crate::specs::Solving::solve_at))]
pub fn solve<'a>(reader: &mut Reader<'a>, draft: &mut Draft<'a>) -> Result<(), Refused>
    ensures { Agrees (λ _. (draft.new, reader.new)) result (solve_at draft.old reader.old) }
{
    if draft.has_goal() {
        return Err(reader.refuse(Code::TwoSolves));
    }
    reader.advance();
    let found = solve_anns(reader)?;
    let goal = goal(reader, draft)?;
    draft.set_goal(goal, found);
    Ok(())
}
