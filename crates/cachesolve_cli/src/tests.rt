ghost use Rattle.std.specs.Prelude.{◌≤◌, Some, None};
ghost use Rattle.cs_base.specs.Chosen.{name_of};

use crate::running::run;
use cs_base::{Failed, MemSink, MemSource, Source, Words};
use solver::Meter;
use std::alloc::{AllocError, Global};
use std::test::Fail;
use std::thread::Threads;

const FIRST: &str = "first.fzn";

const SECOND: &str = "second one.fzn";

/// Standard input and two files in memory. It tells which one was chosen.
#[derive(Drop)]
struct TwoFiles {
    chosen: Option<&'static str>,
    at: usize,
    faults: u64,
}

impl TwoFiles {
    fn bytes(&self) -> &'static [u8] {
        match self.chosen {
            None => b"solve satisfy;",
            Some(name) if name == FIRST => b"var 1..3: x :: output_var; solve minimize x;",
            Some(_) => b"var 7..9: x :: output_var; solve minimize x;",
        }
    }
}

impl Source for TwoFiles {
    ghost left = { λ _. None };

    ghost chosen = { λ s. Some (name_of s.chosen) };

    ghost faults = { λ s. s.faults };

    fn begin(&mut self, name: Option<&str>) -> Result<(), Failed> {
        let chosen = match name {
            None => None,
            Some(name) if name == FIRST => Some(FIRST),
            Some(name) if name == SECOND => Some(SECOND),
            Some(_) => {
                self.faults = self.faults.saturating_add(1);
                return Err(Failed);
            }
        };
        self.chosen = chosen;
        self.at = 0;
        Ok(())
    }

    fn read(&mut self, buf: &mut [u8]) -> Result<usize, Failed> {
        let bytes = self.bytes();
        let count = bytes.len().saturating_sub(self.at).min(buf.len());
        if count == 0 {
            return Ok(0);
        }
        buf[..count].copy_from_slice(&bytes[self.at..self.at + count]);
        self.at += count;
        Ok(count)
    }
}

/// How a run ended, and what it wrote.
#[derive(Drop)]
struct Run {
    code: u8,
    out: Vec<u8>,
    err: Vec<u8>,
}

/// The words of a command line.
fn words_of(alloc: Global, words: &[&str]) -> Result<Words, AllocError> {
    let mut all = Vec::new(alloc);
    for word in words {
        all.push(String::from_str(alloc, word)?)?;
    }
    Ok(Words::new(all))
}

/// Runs with these words, on this source, and on an output that takes one byte a write, whose write `write_fails` fails;
/// 0 means none.
fn run_from<R: Threads + Sync, S: Source>(
    rt: &R,
    alloc: Global,
    words: &[&str],
    source: &mut S,
    write_fails: u64,
) -> Result<Run, AllocError> {
    let words = words_of(alloc, words)?;
    let mut out = MemSink::new(alloc, 1000, 1, vec![in alloc; write_fails]?)?;
    let mut err = MemSink::new(alloc, 1000, 1000, Vec::new(alloc))?;
    let mut meter = Meter::new();
    let status = run(rt, alloc, &words, source, &mut out, &mut err, &mut meter);
    Ok(Run {
        code: status.code,
        out: Vec::from_slice(alloc, out.bytes())?,
        err: Vec::from_slice(alloc, err.bytes())?,
    })
}

/// The same without words, on a source that gives at most so many bytes a read, whose call `read_fails` fails.
fn run_on<R: Threads + Sync>(
    rt: &R,
    alloc: Global,
    text: &[u8],
    most: usize,
    read_fails: u64,
    write_fails: u64,
) -> Result<Run, AllocError>
    requires { 1 ≤ most }
{
    let mut source = MemSource::new(
        Vec::from_slice(alloc, text)?,
        most,
        vec![in alloc; read_fails]?,
    );
    run_from(rt, alloc, &[], &mut source, write_fails)
}

const LEAST: &[u8] = b"var 1..3: x :: output_var; solve minimize x;";

const LEAST_OUT: &[u8] = b"x = 1;\n----------\n==========\n";

/// Files with what is written for them, at status 0.
#[rattlefmt::skip]
static ANSWERED: [(&[u8], &[u8]); 17] = [
    (b"var 1..3: x :: output_var; solve minimize x;", b"x = 1;\n----------\n==========\n"),
    (b"var 1..3: x :: output_var; constraint int_lin_le([1],[x],0); solve minimize x;", b"=====UNSATISFIABLE=====\n"),
    (b"var 3..1: x :: output_var; solve minimize x;", b"=====UNSATISFIABLE=====\n"),
    (b"solve satisfy;", b"----------\n"),
    (b"var 0..1: x1 :: output_var;\nvar 0..1: x2 :: output_var;\nvar 0..1: x3 :: output_var;\nvar 0..1: x4 :: output_var;\nvar 0..18: z :: output_var;\nconstraint int_lin_le([2,3,4,5],[x1,x2,x3,x4],5);\nconstraint int_lin_eq([3,4,5,6,-1],[x1,x2,x3,x4,z],0);\nsolve maximize z;\n", b"x1 = 1;\nx2 = 1;\nx3 = 0;\nx4 = 0;\nz = 7;\n----------\n==========\n"),
    (b"var 1..2: a; var 1..2: b; var 1..2: c; constraint fzn_all_different_int([a,b,c]); solve satisfy;", b"=====UNSATISFIABLE=====\n"),
    (b"var 0..4: i :: output_var; var 0..10: c :: output_var; constraint array_int_element(i,[5,7,9],c); solve maximize c;", b"i = 3;\nc = 9;\n----------\n==========\n"),
    (b"var -1..1: x :: output_var; var -10..10: y :: output_var; constraint int_div(6,x,y); solve minimize y;", b"x = -1;\ny = -6;\n----------\n==========\n"),
    (b"var bool: a :: output_var; var bool: b :: output_var; constraint bool_clause([a],[b]); constraint bool_eq_reif(a,b,false); solve satisfy;", b"a = true;\nb = false;\n----------\n"),
    (b"var 1..2: x :: foo(0.5); solve satisfy;", b"----------\n"),
    (b"var int: x :: output_var; constraint int_le(x,5); solve maximize x;", b"x = 5;\n----------\n==========\n"),
    (b"var int: x :: output_var; solve maximize x;", b"x = 1000000;\n----------\n==========\n"),
    (b"var 0x10..0o20: x :: output_var; solve satisfy;", b"x = 16;\n----------\n"),
    (b"var {}: x; solve satisfy;", b"=====UNSATISFIABLE=====\n"),
    (b"var 1..1: a; var 2..2: b; array [1..4] of var int: m :: output_array([1..2,1..2]) = [a,b,3,4]; solve satisfy;", b"m = array2d(1..2, 1..2, [1, 2, 3, 4]);\n----------\n"),
    (b"solve minimize 7;", b"----------\n==========\n"),
    (b"predicate fzn_cumulative(array [int] of var int: s,array [int] of var int: d,array [int] of var int: r,var int: b);\narray [1..4] of int: X_INTRODUCED_4_ = [3,2,2,1];\narray [1..4] of int: X_INTRODUCED_5_ = [1,1,2,1];\narray [1..2] of int: X_INTRODUCED_7_ = [1,-1];\nvar 0..8: X_INTRODUCED_0_;\nvar 0..8: X_INTRODUCED_1_;\nvar 0..8: X_INTRODUCED_2_;\nvar 0..8: X_INTRODUCED_3_;\nvar 0..8: makespan:: output_var;\nvar 2..10: X_INTRODUCED_6_:: var_is_introduced :: is_defined_var;\narray [1..4] of var int: s:: output_array([1..4]) = [X_INTRODUCED_0_,X_INTRODUCED_1_,X_INTRODUCED_2_,X_INTRODUCED_3_];\nconstraint fzn_cumulative(s,X_INTRODUCED_4_,X_INTRODUCED_5_,2);\nconstraint int_lin_eq(X_INTRODUCED_7_,[X_INTRODUCED_2_,X_INTRODUCED_6_],-2):: defines_var(X_INTRODUCED_6_);\nconstraint int_le(X_INTRODUCED_6_,makespan);\nconstraint int_lin_le(X_INTRODUCED_7_,[X_INTRODUCED_0_,makespan],-3);\nconstraint int_lin_le(X_INTRODUCED_7_,[X_INTRODUCED_1_,makespan],-2);\nconstraint int_lin_le(X_INTRODUCED_7_,[X_INTRODUCED_3_,makespan],-1);\nconstraint int_lin_le(X_INTRODUCED_7_,[X_INTRODUCED_0_,X_INTRODUCED_2_],-3);\nconstraint int_lin_le(X_INTRODUCED_7_,[X_INTRODUCED_1_,X_INTRODUCED_3_],-2);\nsolve :: int_search(s,first_fail,indomain_min,complete) minimize makespan;\n", b"makespan = 5;\ns = array1d(1..4, [0, 0, 3, 2]);\n----------\n==========\n"),
];

/// Files with what is said of them, at status 5.
#[rattlefmt::skip]
static REFUSED: [(&[u8], &[u8]); 14] = [
    (b"var float: f;", b"cachesolve: line 1: float: float\n"),
    (b"var 1..3: x;\nconstraint int_lin_le([1,", b"cachesolve: line 2: syntax: end of input\n"),
    (b"var 0..1000001: x; solve satisfy;", b"cachesolve: line 1: out of range: 1000001\n"),
    (b"var 1..2: x;\nvar 1..2: x;", b"cachesolve: line 2: declared twice: x\n"),
    (b"var 1..2: x;\nconstraint int_lin_le([1,2],[x],3);", b"cachesolve: line 2: lengths: )\n"),
    (b"var 1..2: x;", b"cachesolve: line 1: no solve: end of input\n"),
    (b"solve satisfy; solve satisfy;", b"cachesolve: line 1: two solves: solve\n"),
    (b"constraint foo(1); solve satisfy;", b"cachesolve: line 1: unknown constraint: foo\n"),
    (b"var 1..2: x; constraint set_in(x,{1}); var 1..1: x;", b"cachesolve: line 1: declared twice: x\n"),
    (b"var set of int: s;", b"cachesolve: line 1: set variable: set\n"),
    (b"constraint int_le(x,1);", b"cachesolve: line 1: undeclared: x\n"),
    (b"constraint int_eq(1);", b"cachesolve: line 1: wrong arguments: )\n"),
    (b"\xff", b"cachesolve: line 1: syntax: \xff\n"),
    (b"var 0..1: x :: a([[[[[[[[[[[[[[[[[[[[[[[[[[[[[[[[[[[[[[[[[[[[[[[[[[[[[[[[[[[[[[[[", b"cachesolve: line 1: too deep: [\n"),
];

#[test]
fn files_have_their_answers(rt: HostRuntime) -> Result<(), Fail> {
    for (text, out) in &ANSWERED {
        let run = run_on(&rt, rt.alloc(), text, 4096, 0, 0)?;
        assert_eq!(rt; run.code, 0);
        assert_eq!(rt; run.out.as_slice(), *out);
        assert_eq!(rt; run.err.len(), 0);
    }
    Ok(())
}

#[test]
fn refusals_say_where_and_why(rt: HostRuntime) -> Result<(), Fail> {
    for (text, err) in &REFUSED {
        let run = run_on(&rt, rt.alloc(), text, 4096, 0, 0)?;
        assert_eq!(rt; run.code, 5);
        assert_eq!(rt; run.out.len(), 0);
        assert_eq!(rt; run.err.as_slice(), *err);
    }
    Ok(())
}

/// A source may have 67,108,864 bytes. One byte more is refused at its first line.
#[test]
fn sources_are_read_to_the_limit(rt: HostRuntime) -> Result<(), Fail> {
    let mut text = Vec::from_slice(rt.alloc(), LEAST)?;
    text.resize(67_108_864, b' ')?;
    let run = run_on(&rt, rt.alloc(), text.as_slice(), 4096, 0, 0)?;
    assert_eq!(rt; run.code, 0);
    text.push(b' ')?;
    let run = run_on(&rt, rt.alloc(), text.as_slice(), 4096, 0, 0)?;
    assert_eq!(rt; run.code, 5);
    assert_eq!(rt;
        run.err.as_slice(),
        b"cachesolve: line 1: too long: end of input\n".as_slice()
    );
    Ok(())
}

const USAGE: &[u8] =
    b"cachesolve: wrong words; use cachesolve [-p N] [-s] [--cache N] [--key-words N] [--nodes N] [--log] [--make N] [FILE]\n";

const UNEQUAL: &[u8] =
    b"var 1..2: x :: output_var; var 1..2: y :: output_var; constraint int_ne(x,y); solve minimize x;";

const KNAPSACK: &[u8] =
    b"var 0..1: x1 :: output_var;\nvar 0..1: x2 :: output_var;\nvar 0..1: x3 :: output_var;\nvar 0..1: x4 :: output_var;\nvar 0..18: z :: output_var;\nconstraint int_lin_le([2,3,4,5],[x1,x2,x3,x4],5);\nconstraint int_lin_eq([3,4,5,6,-1],[x1,x2,x3,x4,z],0);\nsolve maximize z;\n";

const KNAPSACK_OUT: &[u8] = b"x1 = 1;\nx2 = 1;\nx3 = 0;\nx4 = 0;\nz = 7;\n----------\n==========\n";

/// Words and a file, with the status and what is written and said.
type Row = (
    &'static [&'static str],
    &'static [u8],
    u8,
    &'static [u8],
    &'static [u8],
);

#[rattlefmt::skip]
static WITH_WORDS: [Row; 14] = [
    (&["--nodes", "0"], UNEQUAL, 3, b"=====UNKNOWN=====\n% undecided: node budget\n", b""),
    (&["--nodes", "4"], UNEQUAL, 0, b"x = 1;\ny = 2;\n----------\n==========\n", b""),
    (&["-p", "1", "--cache", "0"], KNAPSACK, 0, KNAPSACK_OUT, b""),
    (&["-p", "1"], KNAPSACK, 0, KNAPSACK_OUT, b""),
    (&["-p", "64", "--cache", "8"], KNAPSACK, 0, KNAPSACK_OUT, b""),
    (&["--nodes", "0"], b"var {}: x; solve satisfy;", 0, b"=====UNSATISFIABLE=====\n", b""),
    (&["-s", "--cache", "8"], LEAST, 0, b"x = 1;\n----------\n==========\n%%%mzn-stat: nodes=1\n%%%mzn-stat: cacheHits=0\n%%%mzn-stat: cacheStores=1\n%%%mzn-stat: cacheGone=0\n%%%mzn-stat-end\n", b""),
    (&["--make", "1", "--nodes", "0", "-s"], b"", 3, b"make 1\nverdict undecided\n%%%mzn-stat: nodes=0\n%%%mzn-stat: cacheHits=0\n%%%mzn-stat: cacheStores=0\n%%%mzn-stat: cacheGone=0\n%%%mzn-stat-end\n", b""),
    (&["--make=007", "--nodes=0"], b"", 3, b"make 007\nverdict undecided\n", b""),
    (&["--cache", "1048576", "--key-words", "4096"], LEAST, 2, b"", USAGE),
    (&["--log", "-p", "2"], LEAST, 2, b"", USAGE),
    (&["--make", "1", "f.fzn"], LEAST, 2, b"", USAGE),
    (&["-p", "0"], LEAST, 2, b"", USAGE),
    (&["-s", "-s"], LEAST, 2, b"", USAGE),
];

#[test]
fn words_have_their_answers(rt: HostRuntime) -> Result<(), Fail> {
    for (words, text, code, out, err) in &WITH_WORDS {
        let mut source = MemSource::new(
            Vec::from_slice(rt.alloc(), text)?,
            64,
            Vec::new(rt.alloc()),
        );
        let run = run_from(&rt, rt.alloc(), words, &mut source, 0)?;
        assert_eq!(rt; run.code, *code, "{words:?}");
        assert_eq!(rt; run.out.as_slice(), *out, "{words:?}");
        assert_eq!(rt; run.err.as_slice(), *err, "{words:?}");
    }
    Ok(())
}

/// The same number makes the same model, and the same search of it.
#[test]
fn made_models_are_the_same(rt: HostRuntime) -> Result<(), Fail> {
    let words = ["--make", "1", "--nodes", "10000", "-s"];
    let mut source = MemSource::new(Vec::new(rt.alloc()), 1, Vec::new(rt.alloc()));
    let first = run_from(&rt, rt.alloc(), &words, &mut source, 0)?;
    let second = run_from(&rt, rt.alloc(), &words, &mut source, 0)?;
    assert!(rt; first.code == 0 || first.code == 3);
    assert_eq!(rt; first.code, second.code);
    assert_eq!(rt; first.out.as_slice(), second.out.as_slice());
    assert!(rt; first.out.as_slice().starts_with(b"make 1\nverdict "));
    Ok(())
}

/// A file that is named is read, and not another one, nor standard input; one that isn't there is a failed read.
#[test]
fn named_files_are_read(rt: HostRuntime) -> Result<(), Fail> {
    #[rattlefmt::skip]
    let rows: [(&[&str], u8, &[u8]); 4] = [
        (&[], 0, b"----------\n"),
        (&["first.fzn"], 0, b"x = 1;\n----------\n==========\n"),
        (&["--", "second one.fzn"], 0, b"x = 7;\n----------\n==========\n"),
        (&["third.fzn"], 6, b""),
    ];
    for (words, code, out) in &rows {
        let mut source = TwoFiles {
            chosen: None,
            at: 0,
            faults: 0,
        };
        let run = run_from(&rt, rt.alloc(), words, &mut source, 0)?;
        assert_eq!(rt; run.code, *code, "{words:?}");
        assert_eq!(rt; run.out.as_slice(), *out, "{words:?}");
    }
    Ok(())
}

/// The source begins, gives each byte and then its end: as many calls, each of which fails in turn.
#[test]
fn failing_reads_write_nothing(rt: HostRuntime) -> Result<(), Fail> {
    let text =
        b"var 1..3: x :: output_var;\nconstraint int_lin_le([1],[x],2);\nsolve minimize x;\n";
    for k in 1..=text.len() as u64 + 2 {
        let run = run_on(&rt, rt.alloc(), text, 1, k, 0)?;
        assert_eq!(rt; run.code, 6);
        assert_eq!(rt; run.out.len(), 0);
        assert_eq!(rt; run.err.as_slice(), b"cachesolve: read failed\n".as_slice());
    }
    let run = run_on(&rt, rt.alloc(), text, 1, text.len() as u64 + 3, 0)?;
    assert_eq!(rt; run.code, 0);
    Ok(())
}

/// Each write fails in turn, and exactly the bytes before it are there.
#[test]
fn failing_writes_leave_a_front(rt: HostRuntime) -> Result<(), Fail> {
    for k in 1..=LEAST_OUT.len() {
        let run = run_on(&rt, rt.alloc(), LEAST, 1, 0, k as u64)?;
        assert_eq!(rt; run.code, 7);
        assert_eq!(rt; run.out.as_slice(), &LEAST_OUT[..k - 1]);
        assert_eq!(rt;
            run.err.as_slice(),
            b"cachesolve: write failed\n".as_slice()
        );
    }
    Ok(())
}
