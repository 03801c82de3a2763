use crate::{Line, read_words};
use cs_base::Words;
use incumbent_board::Options;
use std::alloc::{AllocError, Global};
use std::process::Abort;
use std::test::Fail;

/// The words of a command line.
fn words_of(alloc: Global, words: &[&str]) -> Result<Words, AllocError> {
    let mut all = Vec::new(alloc);
    for word in words {
        all.push(String::from_str(alloc, word)?)?;
    }
    Ok(Words::new(all))
}

/// Whether to write what the search took, then the workers, the ways of the cache, the words of a key and the nodes.
type Figures = (bool, u32, u32, u32, u64);

const DEFAULT: Figures = (false, 1, 65_536, 512, 1_000_000_000);

/// Words that are taken, with the figures, the model to make and the file that they ask for.
type Taken = (
    &'static [&'static str],
    Figures,
    Option<(&'static str, u64)>,
    Option<&'static str>,
);

/// Words that are taken, and what they ask for.
#[rattlefmt::skip]
static TAKEN: [Taken; 32] = [
    (&[], DEFAULT, None, None),
    (&["-p4"], (false, 4, 65_536, 512, 1_000_000_000), None, None),
    (&["-p=4"], (false, 4, 65_536, 512, 1_000_000_000), None, None),
    (&["-p", "4"], (false, 4, 65_536, 512, 1_000_000_000), None, None),
    (&["-sp", "4"], (true, 4, 65_536, 512, 1_000_000_000), None, None),
    (&["-sp4"], (true, 4, 65_536, 512, 1_000_000_000), None, None),
    (&["-s"], (true, 1, 65_536, 512, 1_000_000_000), None, None),
    (&["-p", "0064"], (false, 64, 65_536, 512, 1_000_000_000), None, None),
    (&["-p", "1"], DEFAULT, None, None),
    (&["--cache=8"], (false, 1, 8, 512, 1_000_000_000), None, None),
    (&["--cache", "08"], (false, 1, 8, 512, 1_000_000_000), None, None),
    (&["--cache", "0"], (false, 1, 0, 512, 1_000_000_000), None, None),
    (&["--cache", "1048576", "--key-words", "256"], (false, 1, 1_048_576, 256, 1_000_000_000), None, None),
    (&["--key-words", "16"], (false, 1, 65_536, 16, 1_000_000_000), None, None),
    (&["--key-words", "4096"], (false, 1, 65_536, 4_096, 1_000_000_000), None, None),
    (&["--nodes", "0"], (false, 1, 65_536, 512, 0), None, None),
    (&["--nodes", "1152921504606846976"], (false, 1, 65_536, 512, 1_152_921_504_606_846_976), None, None),
    (&["-s", "--nodes", "3", "--key-words=20", "-p2", "--cache", "16"], (true, 2, 16, 20, 3), None, None),
    (&["a.fzn"], DEFAULT, None, Some("a.fzn")),
    (&["a b.fzn"], DEFAULT, None, Some("a b.fzn")),
    (&[""], DEFAULT, None, Some("")),
    (&["-"], DEFAULT, None, Some("-")),
    (&["--", "-x"], DEFAULT, None, Some("-x")),
    (&["--", "--"], DEFAULT, None, Some("--")),
    (&["a", "--"], DEFAULT, None, Some("a")),
    (&["--", "a"], DEFAULT, None, Some("a")),
    (&["7"], DEFAULT, None, Some("7")),
    (&["--make", "1"], DEFAULT, Some(("1", 1)), None),
    (&["--make=007"], DEFAULT, Some(("007", 7)), None),
    (&["--make", "0"], DEFAULT, Some(("0", 0)), None),
    (&["--make", "9999999999999999999"], DEFAULT, Some(("9999999999999999999", 9_999_999_999_999_999_999)), None),
    (&["-p", "2", "f", "--nodes", "1000000000", "--cache", "65536", "--key-words", "512"], (false, 2, 65_536, 512, 1_000_000_000), None, Some("f")),
];

/// Words that are refused.
#[rattlefmt::skip]
static REFUSED: [&[&str]; 54] = [
    &["--log"], &["--log=1"], &["--log="], &["--log", "-p", "2"], &["--log", "--log"],
    &["--cache", "-8"], &["--cach", "8"], &["--cache"], &["--cache", ""], &["--cache=", "8"], &["--cache", "4"],
    &["--cache", "9"], &["--cache", "1048584"], &["--cache", "1048576"], &["--cache", "1048576", "--key-words", "257"],
    &["--cache", "8", "--cache", "8"], &["--cache", "+8"], &["--cache", "8 "], &["--cache", "0x8"], &["--cache", "4294967304"],
    &["--key-words", "15"], &["--key-words", "4097"], &["--key-words", "16", "--key-words=16"], &["--key-words"],
    &["--nodes", "1152921504606846977"], &["--nodes", "10000000000000000000"], &["--nodes", "-1"], &["--nodes", "1", "--nodes", "1"],
    &["-p", "0"], &["-p", "65"], &["-p", "00000000000000000001"], &["-p"], &["-p="], &["-p=", "4"], &["-p==4"],
    &["-p", "--"], &["-p1", "-p1"], &["-ps"], &["-p", "4294967297"],
    &["-s", "-s"], &["-ss"], &["-s=1"], &["-x"], &["-sx"], &["-h"], &["-V"], &["--help"], &["--version"],
    &["a", "b"], &["a", "--", "b"],
    &["--make", "1", "a"], &["--make", "x"], &["--make", "10000000000000000000"], &["--make", "1", "--make", "1"],
];

/// Fails where the words ask for something else.
fn asks(rt: &impl Abort, line: &Line<'_>, row: &Taken) {
    let (words, (stats, workers, ways, key_words, nodes), make, file) = row;
    let options = Options {
        workers: *workers,
        ways: *ways,
        key_words: *key_words,
        nodes: *nodes,
    };
    assert_eq!(rt; line.options, options, "{words:?}");
    assert_eq!(rt; line.stats, *stats, "{words:?}");
    assert_eq!(rt; line.make, *make, "{words:?}");
    assert_eq!(rt; line.file, *file, "{words:?}");
}

#[test]
fn good_words_are_taken(rt: HostRuntime) -> Result<(), Fail> {
    for row in &TAKEN {
        let words = words_of(rt.alloc(), row.0)?;
        match read_words(rt.alloc(), &words)? {
            Some(line) => asks(&rt, &line, row),
            None => panic!(rt; "{:?}", row.0),
        }
    }
    Ok(())
}

#[test]
fn wrong_words_are_refused(rt: HostRuntime) -> Result<(), Fail> {
    for row in &REFUSED {
        let words = words_of(rt.alloc(), row)?;
        assert!(rt; read_words(rt.alloc(), &words)?.is_none(), "{row:?}");
    }
    Ok(())
}
