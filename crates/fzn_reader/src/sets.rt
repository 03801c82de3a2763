//! Sets of numbers.
ghost use Rattle.std.specs.Prelude.{◌≡◌, List, [], ◌∷◌, ◌++◌, ℤ, IfOk, OnOk, All, codes};
ghost use Rattle.std.specs.Ordering.{int_cmp};
ghost use Rattle.std.specs.BTreeSet.{insert_key};
ghost use Rattle.fzn_model.specs.Limits.{IsValue};
ghost use Rattle.fzn_reader.specs.Refusals.{more_at, next_at, separated_at};
ghost use Rattle.fzn_reader.specs.Sets.{number_at, range_set, range_at, one_number, runs_from, runs_of, braces_at};
ghost use Rattle.fzn_reader.specs.Answers.{Agrees, Gives};
ghost use Rattle.fzn_reader.specs.Invariants.{SetKept};

use crate::begin::{Begin, begins};
use crate::code::Code;
use crate::numbers::number_in;
use crate::parse_fault::ParseFault;
use crate::reader::{MOST, Reader, refused};
use crate::refused::Refused;
use fzn_model::{List, Runs};
use std::alloc::{AllocError, Global};
use std::collections::BTreeSet;

/// A number in range.
#[tactic(auto, unfolding(crate::specs::Sets::number_at))]
pub fn number(reader: &mut Reader) -> Result<i64, Refused>
    ensures value { Agrees (λ z. (z, reader.new)) result (number_at reader.old) }
    ensures kept { IfOk result IsValue }
{
    match begins(reader) {
        Begin::Number => {
            let here = reader.here();
            let Some(number) = number_in(here.text) else {
                return Err(refused(Code::OutOfRange, here));
            };
            reader.advance();
            Ok(number)
        }
        Begin::Real => Err(reader.refuse(Code::Float)),
        Begin::Truth(_) | Begin::Name | Begin::Brace | Begin::Bracket | Begin::Other => {
            Err(reader.refuse(Code::Syntax))
        }
    }
}

/// The numbers from low to high, none where low is above high.
pub fn range_set(alloc: Global, low: i64, high: i64) -> Result<Runs, AllocError>
    requires low { IsValue low }
    requires high { IsValue high }
    ensures value { IfOk result (λ set. set ≡ range_set low high) }
    ensures kept { IfOk result SetKept }
{
    let mut runs = List::new(alloc);
    if low <= high {
        runs.push((low, high))?;
    }
    Ok(Runs { runs })
}

/// `Number .. Number`
#[tactic(auto, unfolding(crate::specs::Sets::range_at))]
pub fn range(alloc: Global, reader: &mut Reader) -> Result<Runs, ParseFault>
    ensures value { Gives (λ set. (set, reader.new)) result (range_at reader.old) }
    ensures kept { IfOk result SetKept }
{
    let low = number(reader)?;
    reader.mark(b"..")?;
    let high = number(reader)?;
    let set = range_set(alloc, low, high)?;
    Ok(set)
}

/// One number more.
#[tactic(auto, using(crate::proofs::RunLemmas::numbers_kept))]
fn insert_number(numbers: &mut BTreeSet<i64>, number: i64) -> Result<(), AllocError>
    ensures value { OnOk result (numbers.new.keys ≡ insert_key int_cmp numbers.old.keys number) }
    ensures kept { OnOk result (IsValue number → All IsValue numbers.old.keys → All IsValue numbers.new.keys) }
{
    numbers.insert(number)?;
    Ok(())
}

/// One number more of a set.
#[tactic(auto, unfolding(crate::specs::Sets::one_number))]
fn one_number(reader: &mut Reader, numbers: &mut BTreeSet<i64>) -> Result<(), ParseFault>
    ensures value { Gives (λ _. (numbers.new.keys, reader.new)) result (one_number numbers.old.keys reader.old) }
    ensures kept { OnOk result (All IsValue numbers.old.keys → All IsValue numbers.new.keys) }
{
    let number = number(reader)?;
    insert_number(numbers, number)?;
    Ok(())
}

/// A comma, and one number more.
#[tactic(auto, unfolding(crate::specs::Refusals::next_at))]
fn next_number(reader: &mut Reader, numbers: &mut BTreeSet<i64>) -> Result<(), ParseFault>
    ensures value { Gives (λ _. (numbers.new.keys, reader.new)) result (next_at one_number numbers.old.keys reader.old) }
    ensures kept { OnOk result (All IsValue numbers.old.keys → All IsValue numbers.new.keys) }
{
    reader.mark(b",")?;
    one_number(reader, numbers)
}

/// The numbers behind the first.
#[tactic(auto, using(crate::proofs::Repeat::repeat_stop, crate::proofs::Repeat::repeat_more, crate::proofs::Repeat::repeat_fail, crate::proofs::Repeat::repeat_none), unfolding(crate::specs::Refusals::more_at))]
fn more_numbers(reader: &mut Reader, numbers: &mut BTreeSet<i64>) -> Result<(), ParseFault>
    ensures value { Gives (λ _. (numbers.new.keys, reader.new)) result (more_at one_number numbers.old.keys reader.old) }
    ensures kept { OnOk result (All IsValue numbers.old.keys → All IsValue numbers.new.keys) }
{
    for _turn in 0..MOST {
        if !reader.is_mark(b",") {
            return Ok(());
        }
        next_number(reader, numbers)?;
    }
    Err(reader.refuse(Code::Syntax).into())
}

/// Numbers with commas between them, up to the `}`, which stays.
#[tactic(auto, unfolding(crate::specs::Refusals::separated_at))]
fn numbers(alloc: Global, reader: &mut Reader) -> Result<BTreeSet<i64>, ParseFault>
    ensures value { Gives (λ set. (set.keys, reader.new)) result (separated_at (codes "}") one_number [] reader.old) }
    ensures kept { IfOk result (λ set. All IsValue set.keys) }
{
    let mut numbers = BTreeSet::new(alloc);
    if reader.is_mark(b"}") {
        return Ok(numbers);
    }
    one_number(reader, &mut numbers)?;
    more_numbers(reader, &mut numbers)?;
    Ok(numbers)
}

/// A number behind a run: the run grows, or ends before it.
#[tactic(auto, using(crate::proofs::RunLemmas::run_grown, crate::proofs::RunLemmas::run_ended))]
fn one_run(
    runs: &mut List<(i64, i64)>,
    run: &mut (i64, i64),
    number: &i64,
) -> Result<(), AllocError>
    requires high { IsValue run.old.1 }
    requires number { IsValue number.now }
    ensures value { OnOk result ((rest : List ℤ) → runs.new ++ runs_from run.new.0 run.new.1 rest ≡ runs.old ++ runs_from run.old.0 run.old.1 (number.now ∷ rest)) }
    ensures kept { OnOk result (SetKept runs.old → IsValue run.old.0 → SetKept runs.new) }
    ensures low { OnOk result (IsValue run.old.0 → IsValue run.new.0) }
    ensures high { OnOk result (IsValue run.new.1) }
{
    if *number <= run.1 + 1 {
        run.1 = run.1.max(*number);
    } else {
        runs.push(*run)?;
        *run = (*number, *number);
    }
    Ok(())
}

/// The runs of rising numbers behind a first number.
fn runs_from(alloc: Global, first: &i64, numbers: &[i64]) -> Result<List<(i64, i64)>, AllocError>
    requires first { IsValue first.now }
    requires kept { All IsValue numbers.now }
    ensures value { IfOk result (λ runs. runs ≡ runs_from first.now first.now numbers.now) }
    ensures kept { IfOk result SetKept }
{
    let mut runs = List::new(alloc);
    let mut run = (*first, *first);
    for number in numbers {
        one_run(&mut runs, &mut run, number)?;
    }
    runs.push(run)?;
    Ok(runs)
}

/// The set of rising numbers.
#[tactic(auto, using(crate::proofs::RunLemmas::are_runs))]
fn runs_of(alloc: Global, numbers: &[i64]) -> Result<Runs, AllocError>
    requires { All IsValue numbers.now }
    ensures value { IfOk result (λ set. set ≡ runs_of numbers.now) }
    ensures kept { IfOk result SetKept }
{
    match numbers {
        [] => Ok(Runs {
            runs: List::new(alloc),
        }),
        [first, more @ ..] => {
            let runs = runs_from(alloc, first, more)?;
            Ok(Runs { runs })
        }
    }
}

/// A set in braces, from its `{` on.
#[tactic(auto, unfolding(crate::specs::Sets::braces_at))]
pub fn braces(alloc: Global, reader: &mut Reader) -> Result<Runs, ParseFault>
    ensures value { Gives (λ set. (set, reader.new)) result (braces_at reader.old) }
    ensures kept { IfOk result SetKept }
{
    reader.advance();
    let numbers = numbers(alloc, reader)?;
    reader.mark(b"}")?;
    let rising: Vec<i64> = numbers.into_iter().collect(alloc)?;
    let set = runs_of(alloc, rising.as_slice())?;
    Ok(set)
}
