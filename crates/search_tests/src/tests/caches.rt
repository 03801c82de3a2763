ghost use Rattle.std.specs.Prelude.{◌≡◌};

use crate::tests::problems::rest_of;
use Answer::{Hit, Miss};
use Put::{AlreadyThere, Refused, Stored};
use Report::{Empty, Gone, NoCache, Unlike, Weak};
use Step::{Lookup, Publish};
use entry_slab::{Entry, ListShelf};
use evictor::{Cache, Look, Put, Reader, Report};
use std::alloc::Global;
use std::process::Abort;
use std::test::Fail;

/// The run of the cost's variable, whose low is at least 0 and whose high at most 9; and the most that its sum with a variable
/// of 0..9 may be.
#[derive(Clone, Copy)]
struct Problem(i64, i64, i64);

/// What a lookup is to answer: a bound and a place, or the reports and the places.
#[derive(Clone, Copy)]
enum Answer {
    Hit(i128, u32),
    Miss(&'static [Report], &'static [u32]),
}

fn is_answer(rt: &impl Abort, look: Look<'_>, answer: Answer) {
    match look {
        Look::Hit(bound, place) => {
            assert!(rt; matches!(answer, Hit(expected, at) if expected == bound && at == place));
        }
        Look::Miss(missed) => {
            let (reports, places) = (missed.reports(), missed.places());
            missed.spend();
            match answer {
                Hit(_, _) => panic!(rt; "it misses"),
                Miss(expected, at) => {
                    assert_eq!(rt; reports.as_slice(), expected);
                    assert_eq!(rt; places.as_slice(), at);
                }
            }
        }
    }
}

/// A call with the problem, and the bound that is published or the one that is needed; and the answer.
#[derive(Clone, Copy)]
enum Step {
    Publish(Problem, i64, Put),
    Lookup(Problem, i128, Answer),
}

fn publish(
    rt: &impl Abort,
    alloc: Global,
    cache: &Cache,
    reader: &mut Reader<ListShelf>,
    problem: Problem,
    bound: i64,
) -> Result<Put, Fail>
    requires { reader.old.pass.cache ≡ cache.now }
    ensures { reader.new.pass.cache ≡ reader.old.pass.cache }
{
    let Problem(low, high, most) = problem;
    assert!(rt; 0 <= low && low <= high && high <= 9 && bound <= low);
    let rest = rest_of(alloc, &(low, high), most)?;
    Ok(cache.publish(reader, Entry::new(rest, i128::from(bound))))
}

fn lookup(
    rt: &impl Abort,
    alloc: Global,
    cache: &Cache,
    reader: &mut Reader<ListShelf>,
    problem: Problem,
    need: i128,
    answer: Answer,
) -> Result<(), Fail>
    requires { reader.old.pass.cache ≡ cache.now }
    ensures { reader.new.pass.cache ≡ reader.old.pass.cache }
{
    let Problem(low, high, most) = problem;
    assert!(rt; 0 <= low && low <= high && high <= 9);
    let rest = rest_of(alloc, &(low, high), most)?;
    is_answer(rt, cache.lookup(reader, &rest, need), answer);
    Ok(())
}

fn follow(
    rt: &impl Abort,
    alloc: Global,
    cache: &Cache,
    reader: &mut Reader<ListShelf>,
    steps: &[Step],
) -> Result<(), Fail>
    requires { reader.old.pass.cache ≡ cache.now }
{
    for step in steps {
        match *step {
            Publish(problem, bound, put) => {
                assert_eq!(rt; publish(rt, alloc, cache, reader, problem, bound)?, put);
            }
            Lookup(problem, need, answer) => {
                lookup(rt, alloc, cache, reader, problem, need, answer)?;
            }
        }
    }
    Ok(())
}

/// The ways; the shelf's room, and every which of its readings is lost; the calls; and the three counts at the end, of hits, of
/// stores and of readings that found nothing.
type Row = (u32, u32, u32, &'static [Step], (u64, u64, u64));

/// Near group 0 of 2, and near group 1.
const FIRST: [u32; 8] = [0, 1, 2, 3, 4, 5, 6, 7];

const SECOND: [u32; 8] = [4, 5, 6, 7, 0, 1, 2, 3];

#[rattlefmt::skip]
static ROWS: [Row; 9] = [
    (8, 8, 0, &[
        Publish(Problem(3, 9, 5), 3, Stored(0)),
        Lookup(Problem(3, 9, 4), 3, Hit(3, 0)),
        Lookup(Problem(3, 9, 4), 4, Miss(&[Empty, Empty, Empty, Empty, Weak(3), Empty, Empty, Empty], &SECOND)),
        Lookup(Problem(3, 9, 6), 3, Miss(&[Empty, Empty, Empty, Empty, Unlike, Empty, Empty, Empty], &SECOND)),
        Publish(Problem(4, 9, 4), 3, AlreadyThere(0)),
    ], (1, 1, 0)),
    (0, 8, 0, &[Lookup(Problem(3, 9, 5), 3, Miss(&[NoCache; 8], &[0; 8])), Publish(Problem(3, 9, 5), 3, Refused)], (0, 0, 0)),
    (8, 0, 0, &[Publish(Problem(3, 9, 5), 3, Refused), Lookup(Problem(3, 9, 5), 3, Miss(&[Empty; 8], &FIRST))], (0, 0, 0)),
    // The word of a weak entry is taken, though four empty ones stand before it.
    (8, 8, 0, &[
        Publish(Problem(3, 9, 5), 2, Stored(0)),
        Publish(Problem(3, 9, 4), 3, Stored(0)),
        Lookup(Problem(3, 9, 4), 3, Hit(3, 0)),
        Lookup(Problem(3, 9, 5), 2, Miss(&[Unlike, Empty, Empty, Empty, Empty, Empty, Empty, Empty], &FIRST)),
    ], (1, 2, 0)),
    // Each reading is lost, and each second one.
    (8, 8, 1, &[
        Publish(Problem(0, 0, 5), 0, Stored(0)),
        Publish(Problem(2, 2, 5), 2, Stored(0)),
        Lookup(Problem(2, 2, 5), 2, Miss(&[Gone, Empty, Empty, Empty, Empty, Empty, Empty, Empty], &FIRST)),
    ], (0, 2, 2)),
    (8, 8, 2, &[
        Publish(Problem(0, 0, 5), 0, Stored(0)),
        Publish(Problem(2, 2, 5), 2, Stored(1)),
        Publish(Problem(4, 4, 5), 4, Stored(0)),
    ], (0, 3, 1)),
    // Eight fill the places. By turn the ninth takes one of its near group, and every eighth time one of its far group.
    (8, 9, 0, &[
        Publish(Problem(0, 0, 5), 0, Stored(0)), Publish(Problem(1, 1, 5), 1, Stored(1)),
        Publish(Problem(2, 2, 5), 2, Stored(2)), Publish(Problem(3, 3, 5), 3, Stored(3)),
        Publish(Problem(4, 4, 5), 4, Stored(4)), Publish(Problem(5, 5, 5), 5, Stored(5)),
        Publish(Problem(6, 6, 5), 6, Stored(6)), Publish(Problem(7, 7, 5), 7, Stored(7)),
        Publish(Problem(8, 8, 5), 8, Stored(1)),
        Lookup(Problem(1, 1, 5), 1, Miss(&[Unlike; 8], &FIRST)),
        Lookup(Problem(8, 8, 5), 8, Hit(8, 1)),
    ], (1, 9, 0)),
    (8, 9, 0, &[
        Publish(Problem(0, 0, 4), 0, Stored(4)), Publish(Problem(1, 1, 4), 1, Stored(5)),
        Publish(Problem(2, 2, 4), 2, Stored(6)), Publish(Problem(3, 3, 4), 3, Stored(7)),
        Publish(Problem(4, 4, 4), 4, Stored(0)), Publish(Problem(5, 5, 4), 5, Stored(1)),
        Publish(Problem(6, 6, 4), 6, Stored(2)), Publish(Problem(7, 7, 4), 7, Stored(3)),
        Publish(Problem(9, 9, 7), 9, Stored(6)),
        Lookup(Problem(2, 2, 4), 2, Miss(&[Unlike; 8], &SECOND)),
        Lookup(Problem(9, 9, 7), 9, Hit(9, 6)),
    ], (1, 9, 0)),
    // Both digests have the same group of four, so the far group is the next one.
    (16, 9, 0, &[
        Publish(Problem(1, 1, 5), 1, Stored(0)), Publish(Problem(3, 3, 5), 3, Stored(1)),
        Publish(Problem(5, 5, 5), 5, Stored(2)), Publish(Problem(7, 7, 5), 7, Stored(3)),
        Publish(Problem(9, 9, 5), 9, Stored(4)),
        Publish(Problem(0, 0, 5), 0, Stored(8)),
        Lookup(Problem(9, 9, 5), 9, Hit(9, 4)),
    ], (1, 6, 0)),
];

#[test]
fn caches(rt: HostRuntime) -> Result<(), Fail> {
    for (ways, room, lose, steps, counts) in &ROWS {
        assert!(rt; *ways % 8 == 0 && *ways <= 1_048_576);
        let (cache, pass) = Cache::new(rt.alloc(), *ways)?;
        let mut reader = Reader::new(pass, ListShelf::new(rt.alloc(), *room, *lose)?);
        follow(&rt, rt.alloc(), &cache, &mut reader, steps)?;
        assert_eq!(rt; (reader.hits(), reader.stores(), reader.gone()), *counts);
    }
    Ok(())
}

/// A pass that one reader gives back keeps its words: another shelf has nothing under the key.
#[test]
fn passes(rt: HostRuntime) -> Result<(), Fail> {
    let (cache, pass) = Cache::new(rt.alloc(), 8)?;
    let mut reader = Reader::new(pass, ListShelf::new(rt.alloc(), 1, 0)?);
    let put = publish(&rt, rt.alloc(), &cache, &mut reader, Problem(3, 9, 5), 3)?;
    assert_eq!(rt; put, Stored(0));
    let shelf = ListShelf::new(rt.alloc(), 1, 0)?;
    let mut reader = Reader::new(reader.into_pass(), shelf);
    let gone = Miss(
        &[Gone, Empty, Empty, Empty, Empty, Empty, Empty, Empty],
        &FIRST,
    );
    lookup(
        &rt,
        rt.alloc(),
        &cache,
        &mut reader,
        Problem(3, 9, 5),
        3,
        gone,
    )?;
    Ok(())
}
