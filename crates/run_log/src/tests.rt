use crate::{Journal, LineJournal, LogLine, NoJournal};
use cs_base::{Failed, MemSink};
use fzn_model::{List, Rest, Runs};
use std::alloc::{AllocError, Global};
use std::process::Abort;
use std::test::Fail;

/// Notes the lines, each with neither a residual problem nor values.
fn note_all<J: Journal>(journal: &mut J, lines: &[LogLine]) {
    for line in lines {
        journal.note(line, None, &[]);
    }
}

/// Fails where the line has another text.
fn gives(
    rt: &impl Abort,
    alloc: Global,
    line: &LogLine,
    rest: Option<&Rest>,
    values: &[i64],
    text: &str,
) -> Result<(), Fail> {
    let mut sink = MemSink::new(alloc, 100, 100, Vec::new(alloc))?;
    let mut journal = LineJournal::new(&mut sink);
    journal.note(line, rest, values);
    assert_eq!(rt; journal.finish(), Ok(()));
    assert_eq!(rt; sink.bytes(), text.as_bytes());
    Ok(())
}

/// Fails where the line, with neither a residual problem nor values, has another text.
fn gives_plain(rt: &impl Abort, alloc: Global, line: &LogLine, text: &str) -> Result<(), Fail> {
    gives(rt, alloc, line, None, &[], text)
}

/// The residual problem of one variable, from 1 to 3, whose value is the cost.
fn one_to_three(alloc: Global) -> Result<Rest, AllocError> {
    let runs = List::from_slice(alloc, &[(1, 3)])?;
    let mut doms = List::new(alloc);
    doms.push(Runs { runs })?;
    let cost = List::from_slice(alloc, &[(1, 0)])?;
    Ok(Rest {
        doms,
        cost,
        cons: List::new(alloc),
        labels: List::new(alloc),
    })
}

#[test]
fn lines_of_the_cache(rt: HostRuntime) -> Result<(), Fail> {
    let alloc = rt.alloc();
    let rest = one_to_three(alloc)?;
    let offset = LogLine::Rest { offset: 0 };
    gives(
        &rt,
        alloc,
        &offset,
        Some(&rest),
        &[],
        "%log rest 0 1 1 1 3 1 1 0 0\n",
    )?;
    let words = LogLine::Wide {
        words: 18446744073709551615,
    };
    gives_plain(&rt, alloc, &words, "%log wide 18446744073709551615\n")?;
    let place = LogLine::Gone { place: 4294967295 };
    gives_plain(&rt, alloc, &place, "%log gone 4294967295\n")?;
    let bound = LogLine::Publish {
        place: 6,
        bound: -5,
    };
    gives_plain(&rt, alloc, &bound, "%log publish 6 -5\n")
}

#[test]
fn lines_of_nodes(rt: HostRuntime) -> Result<(), Fail> {
    let alloc = rt.alloc();
    let node = LogLine::Node {
        depth: 0,
        seen: 9223372036854775807,
    };
    gives_plain(&rt, alloc, &node, "%log node 0 9223372036854775807\n")?;
    let hit = LogLine::Hit {
        depth: 2,
        bound: -7,
        place: 3,
    };
    gives_plain(&rt, alloc, &hit, "%log hit 2 -7 3\n")?;
    let leaf = LogLine::Leaf {
        depth: 4,
        bound: -9223372036854775808,
    };
    gives_plain(&rt, alloc, &leaf, "%log leaf 4 -9223372036854775808\n")?;
    let join = LogLine::Join {
        depth: 3,
        bound: 12,
    };
    gives_plain(&rt, alloc, &join, "%log join 3 12\n")
}

#[test]
fn lines_of_steps(rt: HostRuntime) -> Result<(), Fail> {
    let alloc = rt.alloc();
    let up = LogLine::Expand {
        depth: 1,
        var: 0,
        at: -2,
        up: true,
    };
    gives_plain(&rt, alloc, &up, "%log expand 1 0 -2 1\n")?;
    let down = LogLine::Expand {
        depth: 10,
        var: 99,
        at: 5,
        up: false,
    };
    gives_plain(&rt, alloc, &down, "%log expand 10 99 5 0\n")?;
    let solution = LogLine::Solution { cost: -4 };
    gives(
        &rt,
        alloc,
        &solution,
        None,
        &[3, -1, 0],
        "%log solution -4 3 -1 0\n",
    )
}

#[test]
fn numbers_of_128_bits(rt: HostRuntime) -> Result<(), Fail> {
    let alloc = rt.alloc();
    let least = LogLine::Rest { offset: i128::MIN };
    let text = "%log rest -170141183460469231731687303715884105728\n";
    gives_plain(&rt, alloc, &least, text)?;
    let greatest = LogLine::Publish {
        place: 0,
        bound: i128::MAX,
    };
    let text = "%log publish 0 170141183460469231731687303715884105727\n";
    gives_plain(&rt, alloc, &greatest, text)
}

/// The second write fails, which is that of the second line. The third line isn't written.
#[test]
fn nothing_is_written_after_a_fault(rt: HostRuntime) -> Result<(), Fail> {
    let alloc = rt.alloc();
    let lines = [
        LogLine::Wide { words: 1 },
        LogLine::Wide { words: 2 },
        LogLine::Wide { words: 3 },
    ];
    note_all(&mut NoJournal, &lines);
    let mut sink = MemSink::new(alloc, 100, 100, vec![in alloc; 2]?)?;
    let mut journal = LineJournal::new(&mut sink);
    note_all(&mut journal, &lines);
    assert_eq!(rt; journal.finish(), Err(Failed));
    assert_eq!(rt; sink.bytes(), b"%log wide 1\n".as_slice());
    Ok(())
}

/// A line that is longer than what is gathered for one write is written whole, by a sink that takes fewer bytes at a time.
#[test]
fn a_long_line_is_whole(rt: HostRuntime) -> Result<(), Fail> {
    let alloc = rt.alloc();
    let mut values = Vec::new(alloc);
    let mut text = Vec::from_slice(alloc, b"%log solution 1")?;
    for _ in 0..1000 {
        values.push(-123456)?;
        text.extend_from_slice(b" -123456")?;
    }
    text.push(b'\n')?;
    let mut sink = MemSink::new(alloc, 10000, 1500, Vec::new(alloc))?;
    let mut journal = LineJournal::new(&mut sink);
    journal.note(&LogLine::Solution { cost: 1 }, None, values.as_slice());
    assert_eq!(rt; journal.finish(), Ok(()));
    assert_eq!(rt; sink.bytes(), text.as_slice());
    Ok(())
}
