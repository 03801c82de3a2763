ghost use Rattle.std.specs.Prelude.{◌≡◌, IfOk, IfSome, Some, None, true, false, option_map, if◌then◌else◌, codes};
ghost use Rattle.clap.specs.Words.{first_of, found_of, rows_of};
ghost use Rattle.command_line.specs.Lines.{is_set, is_number_or_none, number_or, options_of, is_in_limits, are_options_good, asked_if_good, asked_of, made_of, number_with_text, line};

use crate::command::command;
use crate::line::Line;
use crate::number::number;
use clap::ArgMatches;
use clap::error::ErrorKind;
use cs_base::Words;
use incumbent_board::Options;
use std::alloc::{AllocError, Global};

/// The first value of an argument.
#[tactic(auto, using(crate::proofs::Lines::given_in_rows))]
fn given<'a>(matches: &ArgMatches<'a>, id: &str) -> Option<&'a str>
    ensures { option_map (λ s. s.now) result ≡ first_of id.now (rows_of (found_of matches.now)) }
{
    matches.get_str(id)
}

/// Whether a flag was given.
fn is_given(matches: &ArgMatches<'_>, id: &str) -> bool
    ensures { result ≡ is_set id.now (rows_of (found_of matches.now)) }
{
    match given(matches, id) {
        Some(text) => text == "true",
        None => false,
    }
}

/// The number that was given to an argument, or the default; none where what was given is no number.
fn number_given(matches: &ArgMatches<'_>, id: &str, default: u64) -> Option<u64>
    ensures { result ≡ (if is_number_or_none id.now (rows_of (found_of matches.now)) then Some (number_or id.now default (rows_of (found_of matches.now))) else None) }
{
    match given(matches, id) {
        Some(text) => number(text),
        None => Some(default),
    }
}

/// The options with these numbers, none where one of them is beyond its limit.
fn options_within(workers: u64, ways: u64, key_words: u64, nodes: u64) -> Option<Options>
    ensures { result ≡ (if is_in_limits (record { workers = workers; ways = ways; key_words = key_words; nodes = nodes }) then Some (record { workers = workers; ways = ways; key_words = key_words; nodes = nodes }) else None) }
{
    if workers < 1 || workers > 64 || ways % 8 != 0 || ways > 1_048_576 {
        return None;
    }
    if key_words < 16 || key_words > 4_096 || ways * key_words > 268_435_456 || nodes > 1 << 60 {
        return None;
    }
    Some(Options {
        workers: workers as u32,
        ways: ways as u32,
        key_words: key_words as u32,
        nodes,
    })
}

/// The number of a model to make, as it was given and what it is, where one was; none where what was given is no number.
fn make_given<'a>(matches: &ArgMatches<'a>) -> Option<Option<(&'a str, u64)>>
    ensures none { is_number_or_none (codes "make") (rows_of (found_of matches.now)) ≡ false → result ≡ None }
    ensures some { is_number_or_none (codes "make") (rows_of (found_of matches.now)) ≡ true → option_map made_of result ≡ Some (number_with_text (first_of (codes "make") (rows_of (found_of matches.now)))) }
{
    match given(matches, "make") {
        Some(text) => Some(Some((text, number(text)?))),
        None => Some(None),
    }
}

/// The options that were given, with the defaults; none where one of them is no number, or beyond its limit.
#[tactic(auto, unfolding(crate::specs::Lines::are_options_good))]
fn options_given(matches: &ArgMatches<'_>) -> Option<Options>
    ensures { result ≡ (if are_options_good (rows_of (found_of matches.now)) then Some (options_of (rows_of (found_of matches.now))) else None) }
{
    let workers = number_given(matches, "workers", 1)?;
    let ways = number_given(matches, "cache", 65_536)?;
    let key_words = number_given(matches, "key-words", 512)?;
    let nodes = number_given(matches, "nodes", 1_000_000_000)?;
    options_within(workers, ways, key_words, nodes)
}

/// What was given, none where it isn't good.
#[tactic(auto, using(crate::proofs::Lines::line_good))]
fn line_from<'a>(matches: &ArgMatches<'a>) -> Option<Line<'a>>
    ensures { option_map asked_of result ≡ asked_if_good (rows_of (found_of matches.now)) }
{
    let options = options_given(matches)?;
    let make = make_given(matches)?;
    let file = given(matches, "FILE");
    if is_given(matches, "log") | (make.is_some() & file.is_some()) {
        return None;
    }
    Some(Line {
        options,
        stats: is_given(matches, "stats"),
        make,
        file,
    })
}

/// Reads the program's words: `cachesolve [-p N] [-s] [--cache N] [--key-words N] [--nodes N] [--log] [--make N] [FILE]`.
///
/// None where they are wrong: where `clap` refuses them for this command (without help and version flags), where a value
/// isn't one to nineteen decimal digits, where a number breaks its limit, where a log is asked for, or where both a model to
/// make and a file are given. The one error is want of memory.
pub fn read_words<'a>(alloc: Global, words: &'a Words) -> Result<Option<Line<'a>>, AllocError>
    ensures line { IfOk result (λ found. option_map asked_of found ≡ line words.now) }
    ensures limits { IfOk result (λ found. IfSome found (λ asked. is_in_limits asked.options ≡ true)) }
{
    match command(alloc)?.try_get_matches_from(words.as_slice()) {
        Ok(matches) => Ok(line_from(&matches)),
        Err(error) if error.kind() == ErrorKind::OutOfMemory => Err(AllocError),
        Err(_) => Ok(None),
    }
}
