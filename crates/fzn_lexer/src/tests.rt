use crate::Kind::{self, Mark, Number, Real, Text, Word};
use crate::{BadByte, Lexer, Seen};
use std::process::Abort;

/// What stands behind the last token, its line and where it begins.
#[derive(Clone, Copy, Debug)]
enum Ending {
    End(u32, u32),
    Bad(u32, u32),
}

use Ending::{Bad, End};

/// Bytes; the kind, line and span of each of their tokens; and what stands behind the last.
type Case = (&'static [u8], &'static [(Kind, u32, u32, u32)], Ending);

/// The lexer gives these tokens, and then the same ending at each call.
fn reads(rt: &impl Abort, (bytes, tokens, ending): Case) {
    assert!(rt; bytes.len() <= 100);
    let mut lexer = Lexer::new(bytes);
    for (kind, line, from, to) in tokens {
        match lexer.next() {
            Ok(Some(token)) => {
                assert_eq!(rt;
                    (token.kind, token.line, token.from, token.to),
                    (*kind, *line, *from, *to)
                );
            }
            _ => assert!(rt; false, "no token at {from}"),
        }
    }
    let mut fork = lexer.fork();
    for _ in 0..2 {
        let spot = fork.spot();
        match (lexer.next(), ending) {
            (Ok(None), End(line, from)) => {
                assert_eq!(rt;
                    (spot.seen, spot.line, spot.from, spot.to),
                    (Seen::End, line, from, from)
                );
            }
            (Err(at), Bad(line, from)) => {
                assert_eq!(rt; at, BadByte { line, from });
                assert_eq!(rt; (spot.seen, spot.line, spot.from), (Seen::Bad, line, from));
                assert_eq!(rt; Some(spot.to), from.checked_add(1));
            }
            _ => assert!(rt; false, "another ending"),
        }
    }
}

static NUMBERS: [Case; 26] = [
    (
        b"1..3",
        &[(Number, 1, 0, 1), (Mark, 1, 1, 3), (Number, 1, 3, 4)],
        End(1, 4),
    ),
    (
        b"1.5..2",
        &[(Real, 1, 0, 3), (Mark, 1, 3, 5), (Number, 1, 5, 6)],
        End(1, 6),
    ),
    (
        b"1..2.5",
        &[(Number, 1, 0, 1), (Mark, 1, 1, 3), (Real, 1, 3, 6)],
        End(1, 6),
    ),
    (b"1...3", &[(Number, 1, 0, 1), (Mark, 1, 1, 3)], Bad(1, 3)),
    (b"0x", &[(Number, 1, 0, 1), (Word, 1, 1, 2)], End(1, 2)),
    (b"0x1F", &[(Number, 1, 0, 4)], End(1, 4)),
    (b"0X1F", &[(Number, 1, 0, 1), (Word, 1, 1, 4)], End(1, 4)),
    (b"0x1e5", &[(Number, 1, 0, 5)], End(1, 5)),
    (b"0o17", &[(Number, 1, 0, 4)], End(1, 4)),
    (b"0o8", &[(Number, 1, 0, 1), (Word, 1, 1, 3)], End(1, 3)),
    (b"-0x10", &[(Number, 1, 0, 5)], End(1, 5)),
    (b"-0o7", &[(Number, 1, 0, 4)], End(1, 4)),
    (b"1-2", &[(Number, 1, 0, 1), (Number, 1, 1, 3)], End(1, 3)),
    (b"007", &[(Number, 1, 0, 3)], End(1, 3)),
    (b"1e", &[(Number, 1, 0, 1), (Word, 1, 1, 2)], End(1, 2)),
    (b"1e+", &[(Number, 1, 0, 1), (Word, 1, 1, 2)], Bad(1, 2)),
    (b"1e5", &[(Real, 1, 0, 3)], End(1, 3)),
    (b"0e5", &[(Real, 1, 0, 3)], End(1, 3)),
    (b"-1.5E+10x", &[(Real, 1, 0, 8), (Word, 1, 8, 9)], End(1, 9)),
    (b"1.", &[(Number, 1, 0, 1)], Bad(1, 1)),
    (b"1.e3", &[(Number, 1, 0, 1)], Bad(1, 1)),
    (b".5", &[], Bad(1, 0)),
    (b"- 1", &[], Bad(1, 0)),
    (b"--1", &[], Bad(1, 0)),
    (b"+1", &[], Bad(1, 0)),
    (b"1 -", &[(Number, 1, 0, 1)], Bad(1, 2)),
];

static OTHERS: [Case; 20] = [
    (b"", &[], End(1, 0)),
    (b"_a1", &[(Word, 1, 0, 3)], End(1, 3)),
    (b"aZ_9.b", &[(Word, 1, 0, 4)], Bad(1, 4)),
    (b"::", &[(Mark, 1, 0, 2)], End(1, 2)),
    (b": ::", &[(Mark, 1, 0, 1), (Mark, 1, 2, 4)], End(1, 4)),
    (b":::", &[(Mark, 1, 0, 2), (Mark, 1, 2, 3)], End(1, 3)),
    (
        b"()[]{},;=",
        &[
            (Mark, 1, 0, 1),
            (Mark, 1, 1, 2),
            (Mark, 1, 2, 3),
            (Mark, 1, 3, 4),
            (Mark, 1, 4, 5),
            (Mark, 1, 5, 6),
            (Mark, 1, 6, 7),
            (Mark, 1, 7, 8),
            (Mark, 1, 8, 9),
        ],
        End(1, 9),
    ),
    (b"\"ab\"", &[(Text, 1, 0, 4)], End(1, 4)),
    (b"\"\"1", &[(Text, 1, 0, 2), (Number, 1, 2, 3)], End(1, 3)),
    (b"\"a\\\"", &[], Bad(1, 0)),
    (
        b"\"\\\"\" \"\\\\\"",
        &[(Text, 1, 0, 4), (Text, 1, 5, 9)],
        End(1, 9),
    ),
    (b"\n\"ab\n\"", &[], Bad(2, 1)),
    (b"\"\\\n\"", &[], Bad(1, 0)),
    (b"\"%\xc8\t\"", &[(Text, 1, 0, 5)], End(1, 5)),
    (b"\xff", &[], Bad(1, 0)),
    (b"%\xff", &[], End(1, 2)),
    (b"a % b", &[(Word, 1, 0, 1)], End(1, 5)),
    (
        b"a\n% x\n\nb",
        &[(Word, 1, 0, 1), (Word, 4, 7, 8)],
        End(4, 8),
    ),
    (b"\t\r\n x%\n", &[(Word, 2, 4, 5)], End(3, 7)),
    (
        b"var 1..2: x;\n",
        &[
            (Word, 1, 0, 3),
            (Number, 1, 4, 5),
            (Mark, 1, 5, 7),
            (Number, 1, 7, 8),
            (Mark, 1, 8, 9),
            (Word, 1, 10, 11),
            (Mark, 1, 11, 12),
        ],
        End(2, 13),
    ),
];

#[test]
fn numbers_and_reals(rt: HostRuntime) {
    for case in &NUMBERS {
        reads(&rt, *case);
    }
}

#[test]
fn words_marks_texts_and_gaps(rt: HostRuntime) {
    for case in &OTHERS {
        reads(&rt, *case);
    }
}
