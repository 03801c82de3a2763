//! Annotations that make outputs.
ghost use Rattle.std.specs.Prelude.{◌≡◌, ◌<◌, ◌≤◌, [], IfOk, IfSome, OnOk, length, min, codes, None, IfErr, false};
ghost use Rattle.fzn_lexer.specs.Spots.{after_first};
ghost use Rattle.fzn_reader.specs.declared.parse_fault.ParseFault.TheVariants as fault;
ghost use Rattle.fzn_model.specs.Shapes.{range_size, array_size};
ghost use Rattle.fzn_model.specs.Limits.{IsValue};
ghost use Rattle.fzn_reader.specs.Refusals.{next_at, more_at, separated_at};
ghost use Rattle.fzn_reader.specs.Annotations.{annotation_at, annotations_at};
ghost use Rattle.fzn_reader.specs.Outputs.{variable_ann, one_range, index_ranges_at, is_shape, shaped, with_ranges, array_ann};
ghost use Rattle.fzn_reader.specs.Answers.{Agrees, Gives};
ghost use Rattle.fzn_reader.specs.Invariants.{SetKept, AreRanges};

use crate::annotations::ann;
use crate::code::Code;
use crate::parse_fault::ParseFault;
use crate::reader::{MOST, Reader, refused};
use crate::refused::Refused;
use crate::sets::number;
use fzn_model::List;
use std::alloc::Global;

/// An annotation of a variable.
#[tactic(auto, unfolding(crate::specs::Annotations::annotation_at, crate::specs::Outputs::variable_ann))]
fn variable_ann(reader: &mut Reader, output: &mut bool) -> Result<(), Refused>
    ensures { Agrees (λ _. (output.new, reader.new)) result (annotation_at variable_ann output.old reader.old) }
{
    reader.mark(b"::")?;
    let here = reader.here();
    let arguments = ann(reader)?;
    *output = *output || (here.text == b"output_var".as_slice() && !arguments);
    Ok(())
}

/// The annotations of a variable, and whether one of them makes an output.
#[tactic(auto, using(crate::proofs::Repeat::repeat_stop, crate::proofs::Repeat::repeat_more, crate::proofs::Repeat::repeat_refuse, crate::proofs::Repeat::repeat_none), unfolding(crate::specs::Annotations::annotations_at))]
pub fn variable_anns(reader: &mut Reader) -> Result<bool, Refused>
    ensures { Agrees (λ output. (output, reader.new)) result (annotations_at variable_ann false reader.old) }
{
    let mut output = false;
    for _turn in 0..MOST {
        if !reader.is_mark(b"::") {
            return Ok(output);
        }
        variable_ann(reader, &mut output)?;
    }
    Err(reader.refuse(Code::Syntax))
}

/// One index range more.
#[tactic(auto, unfolding(crate::specs::Outputs::one_range))]
fn one_range(reader: &mut Reader, ranges: &mut List<(i64, i64)>) -> Result<(), ParseFault>
    ensures value { Gives (λ _. (ranges.new, reader.new)) result (one_range ranges.old reader.old) }
    ensures kept { OnOk result (SetKept ranges.old → SetKept ranges.new) }
{
    let low = number(reader)?;
    reader.mark(b"..")?;
    let high = number(reader)?;
    ranges.push((low, high))?;
    Ok(())
}

/// A comma, and one index range more.
#[tactic(auto, unfolding(crate::specs::Refusals::next_at))]
fn next_range(reader: &mut Reader, ranges: &mut List<(i64, i64)>) -> Result<(), ParseFault>
    ensures value { Gives (λ _. (ranges.new, reader.new)) result (next_at one_range ranges.old reader.old) }
    ensures kept { OnOk result (SetKept ranges.old → SetKept ranges.new) }
{
    reader.mark(b",")?;
    one_range(reader, ranges)
}

/// The index ranges behind the first.
#[tactic(auto, using(crate::proofs::Repeat::repeat_stop, crate::proofs::Repeat::repeat_more, crate::proofs::Repeat::repeat_fail, crate::proofs::Repeat::repeat_none), unfolding(crate::specs::Refusals::more_at))]
fn more_ranges(reader: &mut Reader, ranges: &mut List<(i64, i64)>) -> Result<(), ParseFault>
    ensures value { Gives (λ _. (ranges.new, reader.new)) result (more_at one_range ranges.old reader.old) }
    ensures kept { OnOk result (SetKept ranges.old → SetKept ranges.new) }
{
    for _turn in 0..MOST {
        if !reader.is_mark(b",") {
            return Ok(());
        }
        next_range(reader, ranges)?;
    }
    Err(reader.refuse(Code::Syntax).into())
}

/// Index ranges, up to the `]`, which stays.
#[tactic(auto, unfolding(crate::specs::Refusals::separated_at))]
fn ranges(alloc: Global, reader: &mut Reader) -> Result<List<(i64, i64)>, ParseFault>
    ensures value { Gives (λ rs. (rs, reader.new)) result (separated_at (codes "]") one_range [] reader.old) }
    ensures kept { IfOk result SetKept }
{
    let mut ranges = List::new(alloc);
    if reader.is_mark(b"]") {
        return Ok(ranges);
    }
    one_range(reader, &mut ranges)?;
    more_ranges(reader, &mut ranges)?;
    Ok(ranges)
}

/// A list of index ranges as the one argument of an annotation.
#[tactic(auto, unfolding(crate::specs::Outputs::index_ranges_at))]
fn index_ranges(alloc: Global, reader: &mut Reader) -> Result<List<(i64, i64)>, ParseFault>
    ensures value { Gives (λ rs. (rs, reader.new)) result (index_ranges_at reader.old) }
    ensures kept { IfOk result SetKept }
{
    reader.mark(b"(")?;
    reader.mark(b"[")?;
    let ranges = ranges(alloc, reader)?;
    reader.mark(b"]")?;
    reader.mark(b")")?;
    Ok(ranges)
}

/// How many numbers there are from low to high.
fn range_size(range: &(i64, i64)) -> u64
    requires { IsValue range.now.0 × IsValue range.now.1 }
    ensures value { result ≡ range_size range.now }
    ensures small { result ≤ 2000001 }
{
    if range.1 < range.0 {
        0
    } else {
        (range.1 - range.0 + 1) as u64
    }
}

/// The product of the sizes, or 2,000,001 where it is greater.
#[tactic(auto, using(crate::proofs::Capped::capped_product))]
fn array_size(ranges: &[(i64, i64)]) -> u64
    requires few { length ranges.now ≤ 6 }
    requires kept { SetKept ranges.now }
    ensures { result ≡ min (array_size ranges.now) 2000001 }
{
    match ranges {
        [] => 1,
        [first, more @ ..] => (range_size(first) * array_size(more)).min(2_000_001),
    }
}

/// One to six ranges whose sizes multiply to the count.
fn is_shape(ranges: &[(i64, i64)], count: u32) -> bool
    requires count { count ≤ 2000000 }
    requires kept { SetKept ranges.now }
    ensures { result ≡ is_shape count ranges.now }
{
    0 < ranges.len() && ranges.len() <= 6 && array_size(ranges) == u64::from(count)
}

/// The index ranges of an annotation that is whole, where they fit the array.
#[tactic(auto)]
fn shaped(
    alloc: Global,
    mut reader: Reader,
    count: u32,
) -> Result<Option<List<(i64, i64)>>, ParseFault>
    requires { count ≤ 2000000 }
    ensures value { IfOk result (λ ranges. ranges ≡ shaped count (index_ranges_at (after_first reader.entry))) }
    ensures kept { IfOk result (λ ranges. IfSome ranges (AreRanges count)) }
    ensures err { IfErr result (λ e. e ≡ fault.NoMemory) }
{
    reader.advance();
    match index_ranges(alloc, &mut reader) {
        Ok(ranges) => {
            if is_shape(ranges.as_slice(), count) {
                Ok(Some(ranges))
            } else {
                Ok(None)
            }
        }
        Err(ParseFault::Refused(_)) => Ok(None),
        Err(ParseFault::NoMemory) => Err(ParseFault::NoMemory),
    }
}

/// An annotation of an array of variables.
#[tactic(auto, unfolding(crate::specs::Annotations::annotation_at, crate::specs::Outputs::array_ann))]
fn array_ann(
    alloc: Global,
    reader: &mut Reader,
    count: u32,
    made: &mut Option<List<(i64, i64)>>,
) -> Result<(), ParseFault>
    requires { count ≤ 2000000 }
    ensures value { Gives (λ _. (made.new, reader.new)) result (annotation_at (array_ann count) made.old reader.old) }
    ensures kept { OnOk result (IfSome made.old (AreRanges count) → IfSome made.new (AreRanges count)) }
{
    reader.mark(b"::")?;
    let here = reader.here();
    let start = reader.fork();
    let _arguments = ann(reader)?;
    if here.text != b"output_array".as_slice() {
        return Ok(());
    }
    let Some(ranges) = shaped(alloc, start, count)? else {
        return Err(refused(Code::WrongArguments, here).into());
    };
    if made.is_none() {
        *made = Some(ranges);
    }
    Ok(())
}

/// The annotations of an array of variables, and the index ranges of its output, where one is made.
#[tactic(auto, using(crate::proofs::Repeat::repeat_stop, crate::proofs::Repeat::repeat_more, crate::proofs::Repeat::repeat_fail, crate::proofs::Repeat::repeat_none), unfolding(crate::specs::Annotations::annotations_at))]
pub fn array_anns(
    alloc: Global,
    reader: &mut Reader,
    count: u32,
) -> Result<Option<List<(i64, i64)>>, ParseFault>
    requires { count ≤ 2000000 }
    ensures value { Gives (λ made. (made, reader.new)) result (annotations_at (array_ann count) None reader.old) }
    ensures kept { IfOk result (λ made. IfSome made (AreRanges count)) }
{
    let mut made = None;
    for _turn in 0..MOST {
        if !reader.is_mark(b"::") {
            return Ok(made);
        }
        array_ann(alloc, reader, count, &mut made)?;
    }
    Err(reader.refuse(Code::Syntax).into())
}
