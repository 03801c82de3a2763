//! `partype : name {:: ann} = expr`
ghost use Rattle.std.specs.Prelude.{◌≡◌, IfOk};
ghost use Rattle.fzn_reader.specs.Answers.{Gives};
ghost use Rattle.fzn_reader.specs.Invariants.{DeclKept};
ghost use Rattle.fzn_reader.specs.Items.{value_by, parameter_at};

use crate::annotations::annotations;
use crate::decl::Decl;
use crate::draft::Draft;
use crate::par_type::ParType;
use crate::parse_fault::ParseFault;
use crate::reader::Reader;
use crate::scalar::{Scalar, read_scalar};
use crate::types::{new_name, partype, set};
use std::alloc::Global;

/// The value of a parameter.
#[tactic(auto, using(crate::proofs::ListLemmas::const_truth))]
fn value(alloc: Global, reader: &mut Reader, draft: &Draft, ty: ParType) -> Result<Decl, ParseFault>
    ensures value { Gives (λ e. (e, reader.new)) result (value_by ty draft.now.names reader.old) }
    ensures kept { IfOk result (DeclKept draft.now.doms) }
{
    match ty {
        ParType::Bool => {
            let term = read_scalar(reader, draft, Scalar::BoolConst)?;
            Ok(Decl::Bool(term))
        }
        ParType::Int => {
            let term = read_scalar(reader, draft, Scalar::IntConst)?;
            Ok(Decl::Int(term))
        }
        ParType::Set => {
            let value = set(alloc, reader, draft, true)?;
            Ok(Decl::Set(value))
        }
    }
}

/// A parameter.
#[tactic(auto, unfolding(crate::specs::Items::parameter_at))]
pub fn parameter<'a>(
    alloc: Global,
    reader: &mut Reader<'a>,
    draft: &mut Draft<'a>,
) -> Result<(), ParseFault>
    ensures { Gives (λ _. (draft.new, reader.new)) result (parameter_at draft.old reader.old) }
{
    let ty = partype(reader)?;
    reader.mark(b":")?;
    let name = new_name(reader, draft, true)?;
    annotations(reader)?;
    reader.mark(b"=")?;
    let value = value(alloc, reader, draft, ty)?;
    draft.add_name(name, value)?;
    Ok(())
}
