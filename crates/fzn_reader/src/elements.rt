//! Lists of ints and bools.
ghost use Rattle.std.specs.Prelude.{◌≡◌, ◌+◌, ◌≤◌, IfOk, OnOk, length};
ghost use Rattle.fzn_reader.specs.Lists.{has_room, one_element, elements_at};
ghost use Rattle.fzn_reader.specs.Answers.{Gives};
ghost use Rattle.fzn_reader.specs.Invariants.{ListInLimits};

use crate::code::Code;
use crate::draft::Draft;
use crate::parse_fault::ParseFault;
use crate::reader::{MOST, Reader};
use crate::scalar::{Scalar, limited_scalar};
use fzn_model::{List, Term};
use std::alloc::Global;

/// Whether there is room for one element more in the file.
pub fn has_room(used: usize) -> bool
    ensures { result ≡ has_room used }
{
    used < 2_000_000
}

/// One element more, and the comma behind it.
#[tactic(auto, using(crate::proofs::ListLemmas::list_push), unfolding(crate::specs::Lists::one_element))]
fn one_element(
    reader: &mut Reader,
    draft: &Draft,
    used: u32,
    need: Scalar,
    terms: &mut List<Term>,
) -> Result<(), ParseFault>
    requires { used + length terms.old ≤ 2000000 }
    ensures value { Gives (λ _. (terms.new, reader.new)) result (one_element used need draft.now.names terms.old reader.old) }
    ensures kept { OnOk result (ListInLimits used draft.now.doms need terms.old → ListInLimits used draft.now.doms need terms.new) }
    ensures count { OnOk result (used + length terms.new ≤ 2000000) }
{
    let room = has_room(used as usize + terms.as_slice().len());
    let term = limited_scalar(reader, draft, need, room)?;
    reader.separator(b"]")?;
    terms.push(term)?;
    Ok(())
}

/// The elements of a list, up to its `]`, which stays. So many elements stood before it in the file.
#[tactic(auto, using(crate::proofs::Repeat::repeat_stop, crate::proofs::Repeat::repeat_more, crate::proofs::Repeat::repeat_fail, crate::proofs::Repeat::repeat_none), unfolding(crate::specs::Lists::elements_at))]
pub fn elements(
    alloc: Global,
    reader: &mut Reader,
    draft: &Draft,
    used: u32,
    need: Scalar,
) -> Result<List<Term>, ParseFault>
    requires { used ≤ 2000000 }
    ensures value { Gives (λ ts. (ts, reader.new)) result (elements_at used need draft.now.names reader.old) }
    ensures kept { IfOk result (ListInLimits used draft.now.doms need) }
{
    let mut terms = List::new(alloc);
    for _turn in 0..MOST {
        if reader.is_mark(b"]") {
            return Ok(terms);
        }
        one_element(reader, draft, used, need, &mut terms)?;
    }
    Err(reader.refuse(Code::Syntax).into())
}
