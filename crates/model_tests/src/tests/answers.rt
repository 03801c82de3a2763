//! The text of answers, of what a search took, and of refusals.

ghost use Rattle.std.specs.Prelude.{IfOk, length};
ghost use Rattle.incumbent_board.specs.Right.{AnswerFits};

use super::model_of;
use cs_base::MemSink;
use fzn_model::{List, Model};
use incumbent_board::Why::{self, Budget, Memory};
use incumbent_board::{Answer, Outcome};
use solution_out::{write_answer, write_refusal, write_stats, write_sums};
use std::alloc::{AllocError, Global};
use std::process::Abort;
use std::test::Fail;

/// What is known of a model, beside a solution where there is one.
#[derive(Clone, Copy, Debug)]
enum Known {
    Unsat,
    Sat,
    Best,
    Stopped(Why),
    Unknown(Why),
}

use Known::{Best, Sat, Stopped, Unknown, Unsat};

/// The text of a model, a value for each of its variables, what is known, and the text that is written for it.
type Row = (&'static str, &'static [i64], Known, &'static str);

#[rattlefmt::skip]
static OUTPUTS: [Row; 18] = [
    // Single variables: numbers, and bools, which are true at 1 alone.
    ("var -9..9: x :: output_var; solve satisfy;", &[-7], Sat, "x = -7;\n----------\n"),
    ("var 0..0: x_1 :: output_var; solve satisfy;", &[0], Sat, "x_1 = 0;\n----------\n"),
    ("var int: x :: output_var :: output_var; solve satisfy;", &[-1_000_000], Sat, "x = -1000000;\n----------\n"),
    ("var bool: b :: output_var; solve satisfy;", &[1], Sat, "b = true;\n----------\n"),
    ("var bool: b :: output_var; solve satisfy;", &[0], Sat, "b = false;\n----------\n"),
    ("var bool: b :: output_var; solve satisfy;", &[2], Sat, "b = false;\n----------\n"),
    ("var 1..9: x; var 1..9: y; solve satisfy;", &[3, 4], Sat, "----------\n"),
    ("var 1..9: z :: output_var; var bool: a :: output_var; var 1..9: y; var 1..9: b :: output_var; solve satisfy;", &[3, 0, 5, 4], Sat, "z = 3;\na = false;\nb = 4;\n----------\n"),
    // Arrays of each number of dimensions: variables, constants and parameters, row after row.
    ("var -9..9: x; var -9..9: y; int: n = 12; array [1..4] of var int: a :: output_array([1..4]) = [y,-2,x,n]; solve satisfy;", &[3, -7], Sat, "a = array1d(1..4, [-7, -2, 3, 12]);\n----------\n"),
    ("var bool: p; var bool: q; array [1..4] of var bool: a :: output_array([-1..2]) = [q,true,p,false]; solve satisfy;", &[0, 1], Sat, "a = array1d(-1..2, [true, true, false, false]);\n----------\n"),
    ("var 1..1: a; var 2..2: b; array [1..4] of var int: m :: output_array([1..2,1..2]) = [a,b,3,4]; solve satisfy;", &[1, 2], Sat, "m = array2d(1..2, 1..2, [1, 2, 3, 4]);\n----------\n"),
    ("var -9..9: x; array [1..6] of var int: m :: output_array([0..1,-4..-4,0x7..0o11]) = [x,x,1,2,3,x]; solve satisfy;", &[-7], Sat, "m = array3d(0..1, -4..-4, 7..9, [-7, -7, 1, 2, 3, -7]);\n----------\n"),
    ("array [1..2] of var int: m :: output_array([1..1,1..2,1..1,5..5]) = [1,2]; solve satisfy;", &[], Sat, "m = array4d(1..1, 1..2, 1..1, 5..5, [1, 2]);\n----------\n"),
    ("array [1..1] of var int: m :: output_array([1..1,1..1,1..1,1..1,1..1]) = [8]; solve satisfy;", &[], Sat, "m = array5d(1..1, 1..1, 1..1, 1..1, 1..1, [8]);\n----------\n"),
    ("var -9..9: x; array [1..2] of var int: m :: output_array([1..1,1..1,1..1,1..1,7..7,0..1]) = [x,-7]; solve satisfy;", &[3], Sat, "m = array6d(1..1, 1..1, 1..1, 1..1, 7..7, 0..1, [3, -7]);\n----------\n"),
    ("array [1..0] of var int: m :: output_array([5..3,1..9]) = []; solve satisfy;", &[], Sat, "m = array2d(5..3, 1..9, []);\n----------\n"),
    ("array [1..0] of var bool: m :: output_array([1..0]) = []; solve satisfy;", &[], Sat, "m = array1d(1..0, []);\n----------\n"),
    // An array behind a variable; the first annotation that makes an output counts.
    ("var 1..9: x :: output_var; array [1..2] of var int: m :: output_array([1..2]) :: output_array([1..1,1..2]) = [x,5]; solve satisfy;", &[6], Sat, "x = 6;\nm = array1d(1..2, [6, 5]);\n----------\n"),
];

#[rattlefmt::skip]
static KINDS: [Row; 8] = [
    ("var 1..9: x :: output_var; var bool: b :: output_var; solve satisfy;", &[3, 1], Sat, "x = 3;\nb = true;\n----------\n"),
    ("var 1..9: x :: output_var; var bool: b :: output_var; solve minimize x;", &[3, 1], Best, "x = 3;\nb = true;\n----------\n==========\n"),
    ("var 1..9: x :: output_var; var bool: b :: output_var; solve minimize x;", &[3, 1], Stopped(Memory), "x = 3;\nb = true;\n----------\n% undecided: memory\n"),
    ("var 1..9: x :: output_var; var bool: b :: output_var; solve minimize x;", &[3, 1], Stopped(Budget), "x = 3;\nb = true;\n----------\n% undecided: node budget\n"),
    ("var 1..9: x :: output_var; var bool: b :: output_var; solve minimize x;", &[3, 1], Unknown(Memory), "=====UNKNOWN=====\n% undecided: memory\n"),
    ("var 1..9: x :: output_var; var bool: b :: output_var; solve minimize x;", &[3, 1], Unknown(Budget), "=====UNKNOWN=====\n% undecided: node budget\n"),
    ("var 1..9: x :: output_var; var bool: b :: output_var; solve minimize x;", &[3, 1], Unsat, "=====UNSATISFIABLE=====\n"),
    ("solve minimize 7;", &[], Best, "----------\n==========\n"),
];

/// The answer of that kind, with these values as its solution where it has one.
fn answer_of(alloc: Global, values: &[i64], known: Known) -> Result<Answer, AllocError>
    ensures { IfOk result (AnswerFits (length values.now)) }
{
    let solution = List::from_slice(alloc, values)?;
    Ok(match known {
        Unsat => Answer::Unsat,
        Sat => Answer::Sat(solution),
        Best => Answer::Best(solution),
        Stopped(why) => Answer::Undecided(Some(solution), why),
        Unknown(why) => Answer::Undecided(None, why),
    })
}

/// What is written for an answer, where no write fails.
fn written(alloc: Global, model: &Model, values: &[i64], known: Known) -> Result<Vec<u8>, Fail> {
    if values.len() != model.doms.as_slice().len() {
        return Err("more or fewer values than variables")?;
    }
    let answer = answer_of(alloc, values, known)?;
    let mut sink = MemSink::new(alloc, 1000, 7, Vec::new(alloc))?;
    if write_answer(&mut sink, model, &answer).is_err() {
        return Err("a write failed")?;
    }
    Ok(Vec::from_slice(alloc, sink.bytes())?)
}

/// Fails where another text is written for a row.
fn all_show(rt: &impl Abort, alloc: Global, rows: &[Row]) -> Result<(), Fail> {
    for (text, values, known, expected) in rows {
        let model = model_of(alloc, text)?;
        let found = written(alloc, &model, values, *known)?;
        assert_eq!(rt; found.as_slice(), expected.as_bytes(), "{text}");
    }
    Ok(())
}

#[test]
fn outputs(rt: HostRuntime) -> Result<(), Fail> {
    all_show(&rt, rt.alloc(), &OUTPUTS)
}

#[test]
fn kinds_of_answer(rt: HostRuntime) -> Result<(), Fail> {
    all_show(&rt, rt.alloc(), &KINDS)
}

/// Values of the variable of a model that maximises it, what is known, and what is written for the number 007.
#[rattlefmt::skip]
static SUMS: [(&[i64], Known, &str); 5] = [
    (&[7], Best, "make 007\nverdict optimal\noptimum 7\n"),
    (&[-7], Best, "make 007\nverdict optimal\noptimum -7\n"),
    (&[7], Stopped(Budget), "make 007\nverdict undecided\n"),
    (&[7], Unknown(Memory), "make 007\nverdict undecided\n"),
    (&[7], Unsat, "make 007\nverdict unsatisfiable\n"),
];

/// What is written for the model made from the number 007, where no write fails.
fn summed(alloc: Global, model: &Model, values: &[i64], known: Known) -> Result<Vec<u8>, Fail> {
    if values.len() != model.doms.as_slice().len() {
        return Err("more or fewer values than variables")?;
    }
    let answer = answer_of(alloc, values, known)?;
    let mut sink = MemSink::new(alloc, 1000, 7, Vec::new(alloc))?;
    if write_sums(&mut sink, b"007", model, &answer).is_err() {
        return Err("a write failed")?;
    }
    Ok(Vec::from_slice(alloc, sink.bytes())?)
}

#[test]
fn sums_of_a_made_model(rt: HostRuntime) -> Result<(), Fail> {
    let model = model_of(rt.alloc(), "var -9..9: x; solve maximize x;")?;
    for (values, known, text) in &SUMS {
        let found = summed(rt.alloc(), &model, values, *known)?;
        assert_eq!(rt; found.as_slice(), text.as_bytes());
    }
    Ok(())
}

/// What is written for 305 nodes, no hit, as many stores as can be counted, and 12 entries that were gone.
static STATISTICS: &str =
    "%%%mzn-stat: nodes=305\n%%%mzn-stat: cacheHits=0\n%%%mzn-stat: cacheStores=18446744073709551615\n%%%mzn-stat: cacheGone=12\n%%%mzn-stat-end\n";

#[test]
fn statistics_show_each_count(rt: HostRuntime) -> Result<(), Fail> {
    let mut sink = MemSink::new(rt.alloc(), 1000, 7, Vec::new(rt.alloc()))?;
    let outcome = Outcome {
        answer: Answer::Unsat,
        nodes: 305,
        hits: 0,
        stores: u64::MAX,
        gone: 12,
    };
    let is_whole = write_stats(&mut sink, &outcome).is_ok();
    assert!(rt; is_whole);
    assert_eq!(rt; sink.bytes(), STATISTICS.as_bytes());
    Ok(())
}

/// A line, the name of a code, a token, and what is written for them.
#[rattlefmt::skip]
static REFUSALS: [(u32, &str, &str, &str); 5] = [
    (2, "no solve", "", "cachesolve: line 2: no solve: end of input\n"),
    (10, "lengths", ")", "cachesolve: line 10: lengths: )\n"),
    (4_294_967_295, "syntax", "0123456789012345678901234567890123456789", "cachesolve: line 4294967295: syntax: 0123456789012345678901234567890123456789\n"),
    (1, "syntax", "01234567890123456789012345678901234567890", "cachesolve: line 1: syntax: 0123456789012345678901234567890123456789\n"),
    (1, "undeclared", "a_name_of_more_than_forty_bytes_of_which_only_these_are_shown", "cachesolve: line 1: undeclared: a_name_of_more_than_forty_bytes_of_which\n"),
];

#[test]
fn refusals_show_the_token(rt: HostRuntime) -> Result<(), Fail> {
    for (line, name, token, text) in &REFUSALS {
        let mut sink = MemSink::new(rt.alloc(), 1000, 1000, Vec::new(rt.alloc()))?;
        let is_whole = write_refusal(&mut sink, *line, name.as_bytes(), token.as_bytes()).is_ok();
        assert!(rt; is_whole);
        assert_eq!(rt; sink.bytes(), text.as_bytes());
    }
    Ok(())
}
