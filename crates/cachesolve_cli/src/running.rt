ghost use Rattle.std.specs.Prelude.{◌≡◌, ◌⊎◌, ◌≤◌, ◌^◌, true, IfOk, IfErr, OnOk, Some, None, take, drop, option_map};
ghost use Rattle.std.specs.Io.KnownBytes.{Keeps};
ghost use Rattle.cs_base.specs.Causes.{Rose};
ghost use Rattle.cs_base.specs.Chosen.{Chose, name_of};
ghost use Rattle.command_line.specs.Lines.{line, asked_of, is_in_limits};
ghost use Rattle.model_gen.specs.Made.{made};
ghost use Rattle.cachesolve_cli.specs.Headline.{IsDecidedRun, IsBudgetRun, IsMemoryRun, IsCutRun, IsModelRun, IsModelStatus, IsRefusedRun, IsRefusalStatus, ChoseFile, IsWithoutFile, IsTold};
ghost use Rattle.cachesolve_cli.specs.Ways.{token_of, status_of};
ghost use Rattle.cachesolve_cli.specs.Stages.{IsAll, EndsReading, EndsBy, EndsSolving, EndsFile, EndsAt, Says};

use crate::ending::Ending;
use command_line::{Line, read_words};
use cs_base::{ReadFault, Sink, Source, Status, Whole, Words, read_all};
use fzn_model::Model;
use fzn_parser::{Code, ParseFault, Refused, parse};
use model_gen::make;
use solution_out::write_outcome;
use solver::{Answer, Meter, solve};
use std::alloc::Global;
use std::thread::Threads;

/// All that the source has left in the file, or in standard input, or how the run ends without it.
#[tactic(auto, using(crate::proofs::Loading::all_taken, crate::proofs::Loading::long_refused, crate::proofs::Loading::chose_same))]
fn fetch<S: Source>(
    alloc: Global,
    source: &mut S,
    file: Option<&str>,
) -> Result<Vec<u8>, Ending<'static>>
    ensures all { IfOk result (λ bytes. IsAll (S.left source.old) bytes.items) }
    ensures chosen { OnOk result (Chose (S.chosen source.new) (name_of file.entry)) }
    ensures kept { OnOk result (S.faults source.new ≡ S.faults source.old) }
    ensures ends { IfErr result (EndsReading (S.left source.old) (S.chosen source.new) (name_of file.entry) (S.faults source.old) (S.faults source.new)) }
{
    if source.begin(file).is_err() {
        return Err(Ending::ReadFailed);
    }
    match read_all(alloc, source, 67_108_864) {
        Ok(Whole::Bytes(bytes)) => Ok(bytes),
        Ok(Whole::More) => {
            let too_long = Refused {
                code: Code::TooLong,
                line: 1,
                from: 0,
                to: 0,
            };
            Err(Ending::Refused(too_long, b""))
        }
        Err(ReadFault::Fault) => Err(Ending::ReadFailed),
        Err(ReadFault::NoMemory) => Err(Ending::NoMemory),
    }
}

/// The bytes behind so many.
#[tactic(auto, using(crate::proofs::Loading::none_behind))]
fn behind(bytes: &[u8], count: usize) -> &[u8]
    ensures { result.now ≡ drop count bytes.now }
{
    if count >= bytes.len() {
        return &[];
    }
    &bytes[count..]
}

/// At most so many bytes at the front.
#[tactic(auto, using(crate::proofs::Loading::all_in_front))]
fn front(bytes: &[u8], count: usize) -> &[u8]
    ensures { result.now ≡ take count bytes.now }
{
    if count >= bytes.len() {
        return bytes;
    }
    &bytes[..count]
}

/// The bytes of the token that shows a refusal.
#[tactic(auto, unfolding(crate::specs::Ways::token_of))]
fn token_of(refused: Refused, bytes: &[u8]) -> &[u8]
    ensures { result.now ≡ token_of refused bytes.now }
{
    let count = refused.to.saturating_sub(refused.from);
    front(behind(bytes, refused.from as usize), count as usize)
}

/// How a run ends whose answer was written.
fn ending_of(answer: &Answer) -> Ending<'static>
    ensures { EndsBy answer.now result }
{
    match answer {
        Answer::Undecided(_, why) => Ending::Undecided(*why),
        Answer::Unsat | Answer::Sat(_) | Answer::Best(_) => Ending::Decided,
    }
}

/// The number of a model to make, as it was given.
fn word_of<'a>(line: &Line<'a>) -> Option<&'a str>
    ensures { name_of result ≡ option_map (λ number. number.0) (asked_of line.now).make }
{
    match line.make {
        Some((word, _)) => Some(word),
        None => None,
    }
}

/// Solves the model, and writes what came of it.
#[tactic(auto, using(crate::proofs::Solving::options_allowed, crate::proofs::Solving::is_outcome, crate::proofs::Solving::written, crate::proofs::Solving::cut, crate::proofs::Solving::nothing_written))]
fn settle<R: Threads + Sync, O: Sink>(
    rt: &R,
    alloc: Global,
    line: &Line<'_>,
    model: &Model,
    out: &mut O,
    meter: &mut Meter,
) -> Ending<'static>
    requires options { is_in_limits line.now.options ≡ true }
    requires meter { (meter.old.count ≤ 2 ^ 100) × (meter.old.closed ≤ 2 ^ 100) }
    ensures { EndsSolving (asked_of line.now) model.now meter.old meter.new (O.written out.old) (O.written out.new) (O.faults out.old) (O.faults out.new) result }
{
    let Ok(outcome) = solve(rt, alloc, model, &line.options, meter) else {
        return Ending::NoMemory;
    };
    match write_outcome(out, word_of(line), line.stats, model, &outcome) {
        Ok(()) => ending_of(&outcome.answer),
        Err(_) => Ending::WriteFailed,
    }
}

/// Reads the model of a file, solves it, and writes what came of it.
#[tactic(auto, using(crate::proofs::Solving::file_read, crate::proofs::Serving::keeps_same))]
fn proceed<'a, R: Threads + Sync, O: Sink>(
    rt: &R,
    alloc: Global,
    line: &Line<'_>,
    bytes: &'a [u8],
    out: &mut O,
    meter: &mut Meter,
) -> Ending<'a>
    requires options { is_in_limits line.now.options ≡ true }
    requires meter { (meter.old.count ≤ 2 ^ 100) × (meter.old.closed ≤ 2 ^ 100) }
    ensures { EndsFile (asked_of line.now) bytes.now meter.old meter.new (O.written out.old) (O.written out.new) (O.faults out.old) (O.faults out.new) result }
{
    let model = match parse(alloc, bytes) {
        Ok(model) => model,
        Err(ParseFault::Refused(refused)) => {
            return Ending::Refused(refused, token_of(refused, bytes));
        }
        Err(ParseFault::NoMemory) => return Ending::NoMemory,
    };
    settle(rt, alloc, line, &model, out, meter)
}

/// Makes a model from a number, solves it, and writes what came of it.
#[tactic(auto, using(crate::proofs::Solving::nothing_written))]
fn produce<R: Threads + Sync, O: Sink>(
    rt: &R,
    alloc: Global,
    line: &Line<'_>,
    number: u64,
    out: &mut O,
    meter: &mut Meter,
) -> Ending<'static>
    requires options { is_in_limits line.now.options ≡ true }
    requires meter { (meter.old.count ≤ 2 ^ 100) × (meter.old.closed ≤ 2 ^ 100) }
    ensures { EndsSolving (asked_of line.now) (made number) meter.old meter.new (O.written out.old) (O.written out.new) (O.faults out.old) (O.faults out.new) result }
{
    match make(alloc, number) {
        Ok(model) => settle(rt, alloc, line, &model, out, meter),
        Err(_) => Ending::NoMemory,
    }
}

/// Says how the run ended.
fn finish<E: Sink>(end: &Ending, err: &mut E) -> Status
    ensures status { result.code ≡ status_of end.now }
    ensures says { Says (E.written err.old) (E.written err.new) (E.faults err.old) (E.faults err.new) end.now }
{
    let _ = end.tell(err);
    Status { code: end.status() }
}

/// Does what good words ask for, and says how that ended.
fn follow<R: Threads + Sync, S: Source, O: Sink, E: Sink>(
    rt: &R,
    alloc: Global,
    asked: &Line<'_>,
    source: &mut S,
    out: &mut O,
    err: &mut E,
    meter: &mut Meter,
) -> Status
    requires options { is_in_limits asked.now.options ≡ true }
    requires meter { (meter.old.count ≤ 2 ^ 100) × (meter.old.closed ≤ 2 ^ 100) }
    ensures ends { EndsAt (Some (asked_of asked.now)) (S.left source.old) (S.chosen source.new) (S.faults source.old) (S.faults source.new) meter.old meter.new (O.written out.old) (O.written out.new) (O.faults out.old) (O.faults out.new) (E.written err.old) (E.written err.new) (E.faults err.old) (E.faults err.new) result.code }
    ensures unread { IsWithoutFile (Some (asked_of asked.now)) → source.new ≡ source.old }
{
    if let Some((_, number)) = asked.make {
        return finish(&produce(rt, alloc, asked, number, out, meter), err);
    }
    let bytes = match fetch(alloc, source, asked.file) {
        Ok(bytes) => bytes,
        Err(end) => return finish(&end, err),
    };
    let end = proceed(rt, alloc, asked, bytes.as_slice(), out, meter);
    finish(&end, err)
}

/// The whole run, and how it ended.
fn serve<R: Threads + Sync, S: Source, O: Sink, E: Sink>(
    rt: &R,
    alloc: Global,
    words: &Words,
    source: &mut S,
    out: &mut O,
    err: &mut E,
    meter: &mut Meter,
) -> Status
    requires meter { (meter.old.count ≤ 2 ^ 100) × (meter.old.closed ≤ 2 ^ 100) }
    ensures ends { EndsAt (line words.now) (S.left source.old) (S.chosen source.new) (S.faults source.old) (S.faults source.new) meter.old meter.new (O.written out.old) (O.written out.new) (O.faults out.old) (O.faults out.new) (E.written err.old) (E.written err.new) (E.faults err.old) (E.faults err.new) result.code }
    ensures unread { IsWithoutFile (line words.now) → source.new ≡ source.old }
{
    let asked = match read_words(alloc, words) {
        Ok(Some(asked)) => asked,
        Ok(None) => return finish(&Ending::WrongWords, err),
        Err(_) => return finish(&Ending::NoMemory, err),
    };
    follow(rt, alloc, &asked, source, out, err, meter)
}

/// One call of the program: reads a FlatZinc file, or makes a model from a number, solves it, and writes the answer.
///
/// The words are `[-p N] [-s] [--cache N] [--key-words N] [--nodes N] [--log] [--make N] [FILE]`, without the program's
/// name. Want of memory ends with status 4; no clause says when it comes.
#[tactic(auto, using(crate::proofs::Endings::decided, crate::proofs::Endings::budget, crate::proofs::Endings::memory, crate::proofs::Endings::words, crate::proofs::Endings::refused_words, crate::proofs::Endings::model, crate::proofs::Endings::refused, crate::proofs::Endings::file, crate::proofs::Endings::read, crate::proofs::Endings::read_kept, crate::proofs::Endings::write, crate::proofs::Endings::write_kept, crate::proofs::Endings::cut, crate::proofs::Endings::silent, crate::proofs::Endings::told))]
pub fn run<R: Threads + Sync, S: Source, O: Sink, E: Sink>(
    rt: &R,
    alloc: Global,
    words: &Words,
    source: &mut S,
    out: &mut O,
    err: &mut E,
    meter: &mut Meter,
) -> Status
    requires meter { (meter.old.count ≤ 2 ^ 100) × (meter.old.closed ≤ 2 ^ 100) }

    // The headline: a decided run writes exactly the text of a right answer for its model, and that answer is what listing
    // all assignments would say.
    ensures decided { result.code ≡ 0 → IsDecidedRun (line words.now) (S.left source.old) (S.chosen source.new) meter.old meter.new (O.written out.old) (O.written out.new) }

    // A run is undecided only where its node budget was spent, which is smaller than the number of assignments, or for want
    // of memory; what it writes then is right.
    ensures budget { result.code ≡ 3 → IsBudgetRun (line words.now) (S.left source.old) (S.chosen source.new) meter.old meter.new (O.written out.old) (O.written out.new) }
    ensures memory { result.code ≡ 4 → IsMemoryRun (line words.now) (S.left source.old) (S.chosen source.new) meter.old meter.new (O.written out.old) (O.written out.new) }

    // Status 2 only where the words are refused, and then no other one but for want of memory.
    ensures words { result.code ≡ 2 → line words.now ≡ None }
    ensures refused_words { line words.now ≡ None → (result.code ≡ 2) ⊎ (result.code ≡ 4) }

    // With good words a model is decided and any other file is refused, but for want of memory or nodes and where a count of
    // faults rose.
    ensures model { IsModelRun (line words.now) (S.left source.old) → IsModelStatus (S.faults source.old) (S.faults source.new) (O.faults out.old) (O.faults out.new) result.code }
    ensures refused { IsRefusedRun (line words.now) (S.left source.old) → IsRefusalStatus (S.faults source.old) (S.faults source.new) result.code }

    // A file is refused only where it is the one that was asked for; and nothing is read where none was.
    ensures file { result.code ≡ 5 → ChoseFile (line words.now) (S.chosen source.new) }
    ensures unread { IsWithoutFile (line words.now) → source.new ≡ source.old }

    // 6 and 7 only where that count of faults rose, and no other status where it did.
    ensures read { result.code ≡ 6 → Rose (S.faults source.old) (S.faults source.new) }
    ensures read_kept { (result.code ≡ 6 → ⊥) → S.faults source.new ≡ S.faults source.old }
    ensures write { result.code ≡ 7 → Rose (O.faults out.old) (O.faults out.new) }
    ensures write_kept { (result.code ≡ 7 → ⊥) → O.faults out.new ≡ O.faults out.old }

    // A failed write leaves a part at the front of such a text; statuses 2, 5 and 6 leave what was written.
    ensures cut { result.code ≡ 7 → IsCutRun (line words.now) (S.left source.old) (S.chosen source.new) meter.old meter.new (O.written out.old) (O.written out.new) }
    ensures silent { (result.code ≡ 2) ⊎ (result.code ≡ 5) ⊎ (result.code ≡ 6) → Keeps (O.written out.old) (O.written out.new) }

    // What is said on `err`, and which statuses there are.
    ensures told { IsTold (S.left source.old) (E.written err.old) (E.written err.new) (E.faults err.old) (E.faults err.new) result.code }
{
    serve(rt, alloc, words, source, out, err, meter)
}
