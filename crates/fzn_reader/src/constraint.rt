//! `constraint name ( [expr {, expr}] ) {:: ann}`
ghost use Rattle.std.specs.Prelude.{◌≡◌, ◌≤◌, IfOk, IsTrue, length};
ghost use Rattle.fzn_builtin.specs.Builtins.{needs_of, IsArgumentCount};
ghost use Rattle.fzn_reader.specs.Constraints.{is_argument_count, built_at, call_at, constraint_at};
ghost use Rattle.fzn_reader.specs.Answers.{Gives};
ghost use Rattle.fzn_reader.specs.Invariants.{ConFits, ArgsKept};

use crate::annotations::annotations;
use crate::arguments::args;
use crate::code::Code;
use crate::draft::Draft;
use crate::parse_fault::ParseFault;
use crate::reader::{Reader, refused};
use fzn_builtin::{Arg, BuildFault, Builtin, build, find, may_end};
use fzn_model::Con;
use std::alloc::Global;

/// Whether so many arguments are a whole list.
#[tactic(auto, using(crate::proofs::ArgLemmas::whole_test))]
fn is_argument_count(builtin: Builtin, count: u32) -> bool
    ensures value { result ≡ is_argument_count builtin count }
    ensures tells { IsTrue result → IsArgumentCount builtin count }
{
    may_end(builtin, count)
}

/// The `)` behind the arguments, and the constraint of the row.
#[tactic(auto, unfolding(crate::specs::Constraints::built_at))]
fn built(
    alloc: Global,
    reader: &mut Reader,
    draft: &Draft,
    builtin: Builtin,
    args: &[Arg],
    used: u32,
) -> Result<(Con, u32), ParseFault>
    requires kept { ArgsKept draft.now.doms (needs_of builtin) (args.now, used) }
    requires few { length args.now ≤ 67108866 }
    ensures value { Gives (λ x. (x, reader.new)) result (built_at builtin (args.now, used) reader.old) }
    ensures kept { IfOk result (λ x. ConFits draft.now.doms x.0) }
    ensures used { IfOk result (λ x. x.1 ≡ used) }
{
    if !reader.is_mark(b")") {
        return Err(reader.refuse(Code::Syntax).into());
    }
    if !is_argument_count(builtin, args.len() as u32) {
        return Err(reader.refuse(Code::WrongArguments).into());
    }
    match build(alloc, builtin, args) {
        Ok(con) => {
            reader.advance();
            Ok((con, used))
        }
        Err(BuildFault::Lengths) => Err(reader.refuse(Code::Lengths).into()),
        Err(BuildFault::NoMemory) => Err(ParseFault::NoMemory),
    }
}

/// `name ( [expr {, expr}] )`
#[tactic(auto, unfolding(crate::specs::Constraints::call_at))]
fn call(
    alloc: Global,
    reader: &mut Reader,
    draft: &Draft,
    used: u32,
) -> Result<(Con, u32), ParseFault>
    requires { used ≤ 2000000 }
    ensures value { Gives (λ x. (x, reader.new)) result (call_at used draft.now.names reader.old) }
    ensures kept { IfOk result (λ x. ConFits draft.now.doms x.0) }
    ensures used { IfOk result (λ x. x.1 ≤ 2000000) }
{
    let here = reader.here();
    let name = reader.name()?;
    let Some(builtin) = find(name) else {
        return Err(refused(Code::UnknownConstraint, here).into());
    };
    reader.mark(b"(")?;
    let mut count = used;
    let args = args(alloc, reader, draft, builtin, &mut count)?;
    built(alloc, reader, draft, builtin, args.as_slice(), count)
}

/// A constraint, from its `constraint` on.
#[tactic(auto, unfolding(crate::specs::Constraints::constraint_at))]
pub fn constraint(alloc: Global, reader: &mut Reader, draft: &mut Draft) -> Result<(), ParseFault>
    ensures { Gives (λ _. (draft.new, reader.new)) result (constraint_at draft.old reader.old) }
{
    if draft.item_count() >= 200_000 {
        return Err(reader.refuse(Code::TooMany).into());
    }
    reader.advance();
    let used = draft.element_count();
    let (con, count) = call(alloc, reader, draft, used)?;
    annotations(reader)?;
    draft.add_item(con)?;
    draft.set_elements(count);
    Ok(())
}
