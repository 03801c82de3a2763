use crate::tests::problems::least_of;
use entry_slab::{Entry, ListShelf, NotKept, Reading, Shelf};
use fzn_model::Rest;
use rest_key::dominates;
use std::alloc::{AllocError, Global};
use std::process::Abort;
use std::test::Fail;

/// The entry of the problem from 1 to 3.
fn entry(alloc: Global) -> Result<Entry, AllocError> {
    Ok(Entry::new(least_of(alloc, &(1, 3))?, 1))
}

/// What an entry tells of itself; the digests are those of the words 1 1 1 3 1 1 0 0.
#[test]
fn entries(rt: HostRuntime) -> Result<(), Fail> {
    let entry = entry(rt.alloc())?;
    assert_eq!(rt;
        (entry.bound(), entry.near(), entry.far()),
        (1, 14_882_483_951_933_314_045, 8_025_024_995_210_706_130)
    );
    let same = least_of(rt.alloc(), &(1, 3))?;
    assert!(rt; dominates(entry.rest(), &same) && dominates(&same, entry.rest()));
    Ok(())
}

/// A problem that the entry is read for: its own, or one with a value more or fewer.
#[derive(Clone, Copy)]
enum Asked {
    Same,
    More,
    Fewer,
}

/// A call of a shelf, with what is to be answered.
#[derive(Clone, Copy)]
enum Step {
    Put(Option<u64>),
    With(u64, Asked, i128, Reading),
    Remove(u64),
}

fn problem(alloc: Global, asked: Asked) -> Result<Rest, AllocError> {
    match asked {
        Asked::Same => least_of(alloc, &(1, 3)),
        Asked::More => least_of(alloc, &(0, 3)),
        Asked::Fewer => least_of(alloc, &(2, 3)),
    }
}

fn take(rt: &impl Abort, alloc: Global, shelf: &mut impl Shelf, step: Step) -> Result<(), Fail> {
    match step {
        Step::Put(kept) => match shelf.put(entry(alloc)?) {
            Ok(key) => assert_eq!(rt; kept, Some(key)),
            Err(NotKept) => assert!(rt; kept.is_none()),
        },
        Step::With(key, asked, need, reading) => {
            let rest = problem(alloc, asked)?;
            assert_eq!(rt; shelf.with(key, &rest, need), reading);
        }
        Step::Remove(key) => shelf.remove(key),
    }
    Ok(())
}

fn follow(
    rt: &impl Abort,
    alloc: Global,
    shelf: &mut impl Shelf,
    steps: &[Step],
) -> Result<(), Fail> {
    for step in steps {
        take(rt, alloc, shelf, *step)?;
    }
    Ok(())
}

/// The room, every which call of `with` is lost, and the calls.
type Row = (u32, u32, &'static [Step]);

#[rattlefmt::skip]
static SHELVES: [Row; 5] = [
    (1, 0, &[Step::Put(Some(0)), Step::Put(None), Step::With(0, Asked::Same, 1, Reading::Hit(1)), Step::With(0, Asked::Same, 2, Reading::Weak(1)), Step::With(0, Asked::Fewer, -5, Reading::Hit(1)), Step::With(0, Asked::More, 1, Reading::Unlike)]),
    (1, 0, &[Step::Put(Some(0)), Step::Remove(0), Step::With(0, Asked::Same, 1, Reading::Gone), Step::Put(Some(1)), Step::With(0, Asked::Same, 1, Reading::Gone), Step::With(1, Asked::Same, 1, Reading::Hit(1))]),
    (2, 0, &[Step::Put(Some(1)), Step::Put(Some(2)), Step::Put(None), Step::Remove(1), Step::Put(Some(5)), Step::With(2, Asked::Same, 1, Reading::Hit(1)), Step::With(1, Asked::Same, 1, Reading::Gone), Step::With(5, Asked::Same, 1, Reading::Hit(1))]),
    (1, 2, &[Step::Put(Some(0)), Step::With(0, Asked::Same, 1, Reading::Hit(1)), Step::With(0, Asked::Same, 1, Reading::Gone), Step::With(0, Asked::Same, 1, Reading::Hit(1)), Step::With(0, Asked::Same, 1, Reading::Gone)]),
    (0, 1, &[Step::Put(None), Step::Remove(0), Step::With(0, Asked::Same, 1, Reading::Gone), Step::With(0, Asked::Same, 1, Reading::Gone)]),
];

/// A full shelf, a key that is given again, a lost call, and no room at all.
#[test]
fn shelves(rt: HostRuntime) -> Result<(), Fail> {
    for (room, lose, steps) in &SHELVES {
        let mut shelf = ListShelf::new(rt.alloc(), *room, *lose)?;
        follow(&rt, rt.alloc(), &mut shelf, steps)?;
    }
    Ok(())
}
