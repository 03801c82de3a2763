use crate::{LogEntry, LogFault, LogLine, read_log};
use std::alloc::Global;
use std::process::Abort;
use std::test::Fail;

/// The text of one line, what it says, its words and its values.
type Row = (&'static [u8], LogLine, &'static [i128], &'static [i64]);

#[rattlefmt::skip]
static LINES: [Row; 21] = [
    (b"%log node 3 -17", LogLine::Node { depth: 3, seen: -17 }, &[], &[]),
    (b"%log node 4294967295 9223372036854775807", LogLine::Node { depth: 4294967295, seen: i64::MAX }, &[], &[]),
    (b"%log rest 0", LogLine::Rest { offset: 0 }, &[], &[]),
    (b"%log rest -5 1 -2 30", LogLine::Rest { offset: -5 }, &[1, -2, 30], &[]),
    (b"%log rest 170141183460469231731687303715884105727 -170141183460469231731687303715884105728", LogLine::Rest { offset: i128::MAX }, &[i128::MIN], &[]),
    (b"%log wide 0", LogLine::Wide { words: 0 }, &[], &[]),
    (b"%log wide 18446744073709551615", LogLine::Wide { words: u64::MAX }, &[], &[]),
    (b"%log gone 12", LogLine::Gone { place: 12 }, &[], &[]),
    (b"%log hit 2 40 7", LogLine::Hit { depth: 2, bound: 40, place: 7 }, &[], &[]),
    (b"%log expand 1 9 -4 0", LogLine::Expand { depth: 1, var: 9, at: -4, up: false }, &[], &[]),
    (b"%log expand 1 9 4 1", LogLine::Expand { depth: 1, var: 9, at: 4, up: true }, &[], &[]),
    (b"%log solution 8", LogLine::Solution { cost: 8 }, &[], &[]),
    (b"%log solution -8 1 0 -9223372036854775808", LogLine::Solution { cost: -8 }, &[], &[1, 0, i64::MIN]),
    (b"%log leaf 0 4", LogLine::Leaf { depth: 0, bound: 4 }, &[], &[]),
    (b"%log join 0 -1", LogLine::Join { depth: 0, bound: -1 }, &[], &[]),
    (b"%log publish 5 -9223372036854775809", LogLine::Publish { place: 5, bound: -9223372036854775809 }, &[], &[]),
    // With the line feed at its end.
    (b"%log leaf 0 4\n", LogLine::Leaf { depth: 0, bound: 4 }, &[], &[]),
    (b"%log rest -5 1 -2 30\n", LogLine::Rest { offset: -5 }, &[1, -2, 30], &[]),
    (b"%log solution 8 7\n", LogLine::Solution { cost: 8 }, &[], &[7]),
    (b"%log gone 10\n", LogLine::Gone { place: 10 }, &[], &[]),
    (b"%log publish 5 100\n", LogLine::Publish { place: 5, bound: 100 }, &[], &[]),
];

/// A text that is no log, and its first line that is none.
#[rattlefmt::skip]
static REFUSED: [(&[u8], u32); 39] = [
    (b"%log leaf", 1),
    (b"%log leaf 0", 1),
    (b"%log leaf 0 4 5", 1),
    (b"%log", 1),
    (b"%log ", 1),
    (b"log leaf 0 4", 1),
    (b" %log leaf 0 4", 1),
    (b"%logleaf 0 4", 1),
    (b"%log leafs 0 4", 1),
    (b"%log Leaf 0 4", 1),
    // Numbers that aren't in canonical form, and spaces.
    (b"%log leaf 0 04", 1),
    (b"%log leaf 00 4", 1),
    (b"%log leaf 0 -0", 1),
    (b"%log leaf 0 -04", 1),
    (b"%log leaf 0 +1", 1),
    (b"%log leaf 0 -", 1),
    (b"%log leaf 0 x", 1),
    (b"%log leaf 0 1\xff", 1),
    (b"%log  leaf 0 4", 1),
    (b"%log leaf  0 4", 1),
    (b"%log leaf 0  4", 1),
    (b"%log leaf 0 4 ", 1),
    (b"%log leaf 0\t4", 1),
    (b"%log leaf 0 4\r\n", 1),
    (b"%log gone 0x1", 1),
    // Numbers beyond their field.
    (b"%log expand 0 0 1 2", 1),
    (b"%log expand 0 0 1 -1", 1),
    (b"%log node 4294967296 0", 1),
    (b"%log gone -1", 1),
    (b"%log leaf 0 9223372036854775808", 1),
    (b"%log solution 0 -9223372036854775809", 1),
    (b"%log wide 18446744073709551616", 1),
    (b"%log rest 170141183460469231731687303715884105728", 1),
    (b"%log rest 0 -170141183460469231731687303715884105729", 1),
    // Words where none belong, and a line behind good ones.
    (b"%log node 0 0 7", 1),
    (b"\n", 1),
    (b"%log leaf 0 4\n\n", 2),
    (b"%log leaf 0 4\n%log gone 1\n%log leaf 0\n%log", 3),
    (b"%log leaf 0 4\n%log rest 0 1 2\n%log leaf 0 4 \n", 3),
];

fn is_row(rt: &impl Abort, entries: &[LogEntry], (text, line, words, values): Row) {
    match entries {
        [entry] => {
            assert_eq!(rt; entry.line, line);
            assert!(rt; entry.words.as_slice() == words, "{text:?}");
            assert!(rt; entry.values.as_slice() == values, "{text:?}");
        }
        _ => assert!(rt; false, "not one entry: {text:?}"),
    }
}

fn reads(rt: &impl Abort, alloc: Global, row: Row) {
    assert!(rt; row.0.len() <= 200);
    match read_log(alloc, row.0) {
        Ok(entries) => is_row(rt, entries.as_slice(), row),
        Err(fault) => assert!(rt; false, "{fault}"),
    }
}

fn refuses(rt: &impl Abort, alloc: Global, text: &[u8], number: u32) {
    assert!(rt; text.len() <= 200);
    match read_log(alloc, text) {
        Ok(_entries) => assert!(rt; false, "read as a log: {text:?}"),
        Err(fault) => assert_eq!(rt; fault, LogFault::BadLine(number)),
    }
}

/// How many entries a text has.
fn count_entries(alloc: Global, text: &[u8]) -> Result<usize, Fail> {
    if text.len() > 200 {
        return Err("the text is too long")?;
    }
    match read_log(alloc, text) {
        Ok(entries) => Ok(entries.as_slice().len()),
        Err(_) => Err("the text is refused")?,
    }
}

#[test]
fn each_kind_is_read(rt: HostRuntime) {
    for row in LINES {
        reads(&rt, rt.alloc(), row);
    }
}

#[test]
fn other_lines_are_refused(rt: HostRuntime) {
    for (text, number) in REFUSED {
        refuses(&rt, rt.alloc(), text, number);
    }
}

#[test]
fn lines_are_counted(rt: HostRuntime) -> Result<(), Fail> {
    assert_eq!(rt; count_entries(rt.alloc(), b"")?, 0);
    assert_eq!(rt;
        count_entries(rt.alloc(), b"%log leaf 0 4\n%log gone 1")?,
        2
    );
    assert_eq!(rt;
        count_entries(rt.alloc(), b"%log leaf 0 4\n%log rest 0 1 2\n%log gone 1\n")?,
        3
    );
    Ok(())
}
