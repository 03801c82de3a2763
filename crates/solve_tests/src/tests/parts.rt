//! The parts of a search, called by themselves.
ghost use Rattle.std.specs.Prelude.{◌≡◌, ◌≤◌, ◌^◌, [], IfOk};
ghost use Rattle.explorer.specs.Holding.{times_held};

use super::{PAIR, model_of};
use entry_slab::ListShelf;
use evictor::{Cache, Reader};
use explorer::{Bench, Explored, Found, Meter, explore};
use fzn_model::{Model, top_of};
use incumbent_board::Board;
use run_log::NoJournal;
use search_core::{Local, Move, Path};
use std::alloc::Global;
use std::test::Fail;

/// A worker's part that holds the empty path.
#[tactic(auto, using(solver::proofs::Starting::claimed, solver::proofs::Starting::claim_expands))]
fn first_local(alloc: Global, top: i64) -> Result<Local, Fail>
    ensures held { IfOk result (λ local. 1 ≤ times_held [] local) }
    ensures expands { IfOk result (λ local. local.expands ≡ 0) }
{
    let mut local = Local::new(alloc, 0, top)?;
    match local.step(&Move::Claim {
        path: Path::new(alloc),
    }) {
        Ok(()) => Ok(local),
        Err(_) => Err("the empty path is not held")?,
    }
}

/// What a search of the empty path says that may expand so many nodes, and what it kept and counted.
#[tactic(auto, using(solver::proofs::Starting::all_positive, solver::proofs::Starting::top_bound))]
fn explored(alloc: Global, model: &Model, budget: u64) -> Result<(Explored, Found, Meter), Fail>
    requires { budget ≤ 2 ^ 60 }
{
    let Some(mut bench) = Bench::new(alloc, model)? else {
        return Err("a domain is empty")?;
    };
    let _kept = &model.cons;
    let top = top_of(model);
    let (board, mut pass) = Board::new(alloc, budget, 1, top)?;
    let (cache, words) = Cache::new(alloc, 0)?;
    let mut reader = Reader::new(words, ListShelf::new(alloc, 1, 0)?);
    let mut local = first_local(alloc, top)?;
    let mut found = Found::new(alloc, model.doms.as_slice().len() as u32)?;
    let mut meter = Meter::new();
    let said = explore(
        alloc,
        model,
        &mut bench,
        &Path::new(alloc),
        512,
        &cache,
        &mut reader,
        &board,
        &mut pass,
        &mut local,
        &mut NoJournal,
        &mut found,
        &mut meter,
    );
    let _totals = board.finish(pass);
    Ok((said, found, meter))
}

#[test]
fn the_empty_path_is_settled(rt: HostRuntime) -> Result<(), Fail> {
    let model = model_of(rt.alloc(), PAIR)?;
    let (said, found, meter) = explored(rt.alloc(), &model, 4)?;
    assert_eq!(rt; said, Explored::Settled(1));
    assert_eq!(rt; (found.cost(), meter.count(), meter.closed()), (1, 1, 1));
    assert!(rt;
        found
            .values()
            .is_some_and(|values| values == [1, 2].as_slice())
    );

    let (said, found, meter) = explored(rt.alloc(), &model, 0)?;
    assert_eq!(rt; said, Explored::Dry);
    assert_eq!(rt; (found.cost(), meter.count(), meter.closed()), (0, 0, 0));
    assert!(rt; found.values().is_none());
    Ok(())
}

#[test]
fn an_empty_domain_has_no_bench(rt: HostRuntime) -> Result<(), Fail> {
    let model = model_of(rt.alloc(), "var {}: x; solve satisfy;")?;
    assert!(rt; Bench::new(rt.alloc(), &model)?.is_none());
    Ok(())
}

/// What one meter takes of others: it has as many nodes and settled paths as all, and the least cost.
#[test]
fn meters_add_up(rt: HostRuntime) -> Result<(), Fail> {
    let (_, _, mut meter) = explored(rt.alloc(), &model_of(rt.alloc(), PAIR)?, 4)?;
    let text = "var 1..2: x; var 1..2: y; constraint int_ne(x,y); solve maximize x;";
    let (_, _, other) = explored(rt.alloc(), &model_of(rt.alloc(), text)?, 4)?;
    assert!(rt; meter.count() <= 4 && meter.closed() <= 4);
    assert!(rt; other.count() <= 4 && other.closed() <= 4);
    meter.take(other);
    meter.take(Meter::new());
    assert_eq!(rt;
        (meter.count(), meter.closed(), meter.least()),
        (2, 2, Some(-2))
    );
    Ok(())
}
