//! The search of a whole model.

ghost use Rattle.std.specs.Prelude.{◌≡◌, ◌+◌, ◌^◌, ◌≤◌, ◌<◌, [], IfOk, OnErr, length, None};
ghost use Rattle.dom_store.specs.Stores.{HasEmpty};
ghost use Rattle.incumbent_board.specs.Right.{Right, AnswerFits};
ghost use Rattle.explorer.specs.Benches.{IsBench};
ghost use Rattle.explorer.specs.Holding.{times_held};
ghost use Rattle.solver.specs.Outcomes.{AreOptions, LacksBudget, IsSpent, IsBySearch, HasTheLeast};

use crate::answers::answer;
use entry_slab::ListShelf;
use evictor::{Cache, Reader};
use explorer::{Bench, Found, Meter, explore};
use fzn_model::{Model, top_of};
use incumbent_board::{Answer, Board, Options, Outcome};
use run_log::NoJournal;
use search_core::{Local, Move, Path, StepFault};
use std::alloc::{AllocError, Global};
use std::thread::Threads;

/// The part of a worker that holds the empty path.
#[tactic(auto, using(crate::proofs::Starting::claimed, crate::proofs::Starting::claim_expands, crate::proofs::Starting::claim_allowed))]
fn first_local(alloc: Global, top: i64) -> Result<Local, AllocError>
    ensures held { IfOk result (λ local. 1 ≤ times_held [] local) }
    ensures expands { IfOk result (λ local. local.expands ≡ 0) }
{
    let mut local = Local::new(alloc, 0, top)?;
    match local.step(&Move::Claim {
        path: Path::new(alloc),
    }) {
        Ok(()) => Ok(local),
        Err(StepFault::NoMemory) => Err(AllocError),
        Err(StepFault::NotAllowed) => unreachable!(),
    }
}

/// Searches a model none of whose domains is empty.
#[tactic(auto, using(crate::proofs::Starting::all_positive, crate::proofs::Starting::top_bound, crate::proofs::Answering::right_said, crate::proofs::Answering::fits_said, crate::proofs::Answering::budget_said, crate::proofs::Answering::closed_said, crate::proofs::Answering::least_said))]
fn search(
    alloc: Global,
    model: &Model,
    bench: &mut Bench,
    options: &Options,
    meter: &mut Meter,
) -> Result<Outcome, AllocError>
    requires bench { IsBench model.now bench.old }
    requires options { AreOptions options.now }
    requires meter { (meter.old.count ≤ 2 ^ 100) × (meter.old.closed ≤ 2 ^ 100) }
    ensures right { IfOk result (λ out. Right model.now out.answer) }
    ensures fits { IfOk result (λ out. AnswerFits (length model.now.doms) out.answer) }
    ensures nodes { IfOk result (λ out. meter.new.count ≡ meter.old.count + out.nodes) }
    ensures budget { IfOk result (λ out. LacksBudget out.answer → IsSpent model.now options.now out) }
    ensures closed { IfOk result (λ out. IsBySearch model.now out.answer → meter.old.closed < meter.new.closed) }
    ensures least { IfOk result (λ out. meter.old.least ≡ None → HasTheLeast model.now meter.new.least out.answer) }
    ensures unspent { OnErr result (meter.new ≡ meter.old) }
{
    let _kept = &model.cons;
    let top = top_of(model);
    let (board, mut pass) = Board::new(alloc, options.nodes, 1, top)?;
    let (cache, words) = Cache::new(alloc, options.ways)?;
    let mut reader = Reader::new(words, ListShelf::new(alloc, options.ways + 1, 0)?);
    let mut local = first_local(alloc, top)?;
    let mut found = Found::new(alloc, model.doms.as_slice().len() as u32)?;
    let path = Path::new(alloc);
    let explored = explore(
        alloc,
        model,
        bench,
        &path,
        options.key_words,
        &cache,
        &mut reader,
        &board,
        &mut pass,
        &mut local,
        &mut NoJournal,
        &mut found,
        meter,
    );
    let totals = board.finish(pass);
    Ok(Outcome {
        answer: answer(model.goal, explored, found.into_values()),
        nodes: totals.credits,
        hits: reader.hits(),
        stores: reader.stores(),
        gone: reader.gone(),
    })
}

/// Solves a model with the options: how many ways the cache has (0, or a multiple of 8 up to 1,048,576), how many words a
/// cached key may have, and how many nodes the search may expand (at most 2^60). One worker serves every number of them.
///
/// The answer is the one that listing all assignments would give, with a solution of its cost; or it is undecided, since the
/// node budget was spent or memory was wanting. The outcome has how many nodes were expanded, by which the meter rises,
/// and what the cache did. The one error is that memory runs out before the search begins.
pub fn solve<R: Threads + Sync>(
    rt: &R,
    alloc: Global,
    model: &Model,
    options: &Options,
    meter: &mut Meter,
) -> Result<Outcome, AllocError>
    requires options { AreOptions options.now }
    requires meter { (meter.old.count ≤ 2 ^ 100) × (meter.old.closed ≤ 2 ^ 100) }

    // The answer is right, and a solution in it has a value for each variable.
    ensures right { IfOk result (λ out. Right model.now out.answer) }
    ensures fits { IfOk result (λ out. AnswerFits (length model.now.doms) out.answer) }

    // The meter rises by exactly the nodes.
    ensures nodes { IfOk result (λ out. meter.new.count ≡ meter.old.count + out.nodes) }

    // For want of budget only where it was spent, and there are more assignments than that. So a budget of at least their
    // number decides, or memory was wanting.
    ensures budget { IfOk result (λ out. LacksBudget out.answer → IsSpent model.now options.now out) }

    // `Best`, and `Unsat` where no domain is empty, only by a search that was closed in this call.
    ensures closed { IfOk result (λ out. IsBySearch model.now out.answer → meter.old.closed < meter.new.closed) }

    // Where the meter was new, an undecided answer has a solution exactly where the meter knows a cost, and it costs that.
    ensures least { IfOk result (λ out. meter.old.least ≡ None → HasTheLeast model.now meter.new.least out.answer) }

    // Without an outcome nothing was spent.
    ensures unspent { OnErr result (meter.new ≡ meter.old) }
{
    let _ = rt;
    let Some(mut bench) = Bench::new(alloc, model)? else {
        return Ok(Outcome {
            answer: Answer::Unsat,
            nodes: 0,
            hits: 0,
            stores: 0,
            gone: 0,
        });
    };
    search(alloc, model, &mut bench, options, meter)
}
