//! Files that are refused: the code, the line and the span of the first token that shows it.

use fzn_parser::Code::{
    DeclaredTwice, Float, Lengths, NoSolve, OutOfRange, SetVar, Syntax, TooDeep, TooLong, TooMany,
    TwoSolves, Undeclared, UnknownConstraint, WrongArguments,
};
use fzn_parser::{Code, ParseFault, Refused, parse};
use std::alloc::{AllocError, Global};
use std::process::Abort;
use std::test::Fail;

/// A file, and the code, line and span of its refusal.
type Case = (&'static [u8], Code, u32, u32, u32);

#[rattlefmt::skip]
static CODES: [Case; 23] = [
    (b"var 1..2 x;", Syntax, 1, 9, 10),
    (b"var 1..2: x", Syntax, 1, 11, 11),
    (b"array [01..2] of int: a = [1,2];", Syntax, 1, 7, 9),
    (b"constraint int_eq(1,);", Syntax, 1, 20, 21),
    (b"constraint int_ge(1,2);", UnknownConstraint, 1, 11, 17),
    (b"var float: x;", Float, 1, 4, 9),
    (b"var 1.5..2: x;", Float, 1, 4, 7),
    (b"var set of int: s;", SetVar, 1, 4, 7),
    (b"constraint int_le(x,2);", Undeclared, 1, 18, 19),
    (b"var 1..3: x = x;", Undeclared, 1, 14, 15),
    (b"var 0..1: x;\nvar 0..1: x;\nsolve satisfy;", DeclaredTwice, 2, 23, 24),
    (b"constraint int_eq(1..x,2);", WrongArguments, 1, 18, 19),
    (b"constraint int_eq(1);", WrongArguments, 1, 19, 20),
    (b"array [1..2] of var int: a :: output_array([1..3]) = [1,2];", WrongArguments, 1, 30, 42),
    (b"var bool: b;\nsolve minimize b;", WrongArguments, 2, 28, 29),
    (b"var 0..1000001: x;", OutOfRange, 1, 7, 14),
    (b"array [1..1] of var int: a = [1]; constraint int_lin_le(a,[2],3);", WrongArguments, 1, 56, 57),
    (b"array [1..2] of int: a = [1];", Lengths, 1, 27, 28),
    (b"constraint int_lin_le([1],[],3);", Lengths, 1, 30, 31),
    (b"var 1..2: x;\n", NoSolve, 2, 13, 13),
    (b"solve satisfy;\nsolve satisfy;", TwoSolves, 2, 15, 20),
    (b"solve satisfy; predicate p(%\n", Syntax, 2, 29, 29),
    (b"var 0..1: x :: a([[[[[[[[[[[[[[[[[[[[[[[[[[[[[[[[[[[[[[[[[[[[[[[[[[[[[[[[[[[[[[[[[[[[[[[[", TooDeep, 1, 80, 81),
];

/// Each code, and the least one where a token shows several.
#[test]
fn codes(rt: HostRuntime) -> Result<(), Fail> {
    all_refused(&rt, rt.alloc(), &CODES)
}

#[rattlefmt::skip]
static EXPRESSIONS: [Case; 17] = [
    (b"constraint bool_eq(1000001,true);", WrongArguments, 1, 19, 26),
    (b"constraint int_eq(1.5,2);", Float, 1, 18, 21),
    (b"constraint int_eq(1,2,x);", Undeclared, 1, 22, 23),
    (b"constraint int_eq(1,2,3);", WrongArguments, 1, 22, 23),
    (b"constraint int_eq(1,2,[1]);", WrongArguments, 1, 22, 23),
    (b"constraint int_eq(1,2,;", Syntax, 1, 22, 23),
    (b"constraint int_eq();", WrongArguments, 1, 18, 19),
    (b"constraint int_eq(1 2);", Syntax, 1, 20, 21),
    (b"var 1..2: x; constraint set_in(x,5);", WrongArguments, 1, 33, 34),
    (b"var 1..2: x; constraint set_in(x,1000001);", WrongArguments, 1, 33, 40),
    (b"var 1..2: x; constraint set_in(x,1000001..2);", OutOfRange, 1, 33, 40),
    (b"var 1..2: x; constraint set_in(x,1..x);", Syntax, 1, 36, 37),
    (b"var 1..2: x; constraint set_in(x,1..1.5);", Float, 1, 36, 39),
    (b"constraint int_lin_le([1]);", WrongArguments, 1, 25, 26),
    (b"constraint array_int_maximum(1,[]);", Lengths, 1, 33, 34),
    (b"constraint bool_xor(true);", WrongArguments, 1, 24, 25),
    (b"constraint bool_xor(true,true,true,true);", WrongArguments, 1, 35, 39),
];

/// Expressions and arguments.
#[test]
fn expressions(rt: HostRuntime) -> Result<(), Fail> {
    all_refused(&rt, rt.alloc(), &EXPRESSIONS)
}

#[rattlefmt::skip]
static ITEMS: [Case; 20] = [
    (b"float: f = 1;", Float, 1, 0, 5),
    (b"set of float: s = {};", Syntax, 1, 7, 12),
    (b"array [1..1] of var set of int: s = [{}];", SetVar, 1, 20, 23),
    (b"var var set: s;", Syntax, 1, 4, 7),
    (b"int: n = n;", Undeclared, 1, 9, 10),
    (b"array [1..1] of int: a = [a];", Undeclared, 1, 26, 27),
    (b"predicate var(x);", Syntax, 1, 10, 13),
    (b"predicate p($", Syntax, 1, 12, 13),
    (b"var 1..2: x; int: n = x;", WrongArguments, 1, 22, 23),
    (b"array [1..1] of int: a = [1]; array [1..1] of int: b = [a];", WrongArguments, 1, 56, 57),
    (b"array [1..2] of set of int: s = [{1},1..2]; constraint int_lin_le(s,s,1);", WrongArguments, 1, 66, 67),
    (b"array [1..1] of int: a = [,];", Syntax, 1, 26, 27),
    (b"array [1..1] of int: a = [1,,];", Syntax, 1, 28, 29),
    (b"array [1..2] of int: a = [1,2,3];", Lengths, 1, 31, 32),
    (b"array [0x1..2] of int: a = [1,2];", Syntax, 1, 7, 10),
    (b"array [1..1.5] of int: a = [];", Float, 1, 10, 13),
    (b"array [1..1] of int: a = 1.5;", Syntax, 1, 25, 28),
    (b"var int: y = 1000001;", OutOfRange, 1, 13, 20),
    (b"var {1,2000000}: y;", OutOfRange, 1, 7, 14),
    (b"var 1..2: x; solve satisfy; var 1..2: x;", DeclaredTwice, 1, 38, 39),
];

/// Items, lists and names.
#[test]
fn items(rt: HostRuntime) -> Result<(), Fail> {
    all_refused(&rt, rt.alloc(), &ITEMS)
}

#[rattlefmt::skip]
static ANNOTATIONS: [Case; 17] = [
    (b"array [1..1] of var int: a :: output_array = [1];", WrongArguments, 1, 30, 42),
    (b"array [1..1] of var int: a :: output_array([]) = [1];", WrongArguments, 1, 30, 42),
    (b"array [1..1] of var int: a :: output_array([1..1],[1..1]) = [1];", WrongArguments, 1, 30, 42),
    (b"array [1..1] of var int: a :: output_array([1..1]) :: output_array([2]) = [1];", WrongArguments, 1, 54, 66),
    (b"array [1..1] of var int: a :: output_array([1..1) = [1];", Syntax, 1, 48, 49),
    (b"var 1..2: x = 1 :: a;", Syntax, 1, 16, 18),
    (b"var 1..2: x :: int;", Syntax, 1, 15, 18),
    (b"var 1..2: x :: true;", Syntax, 1, 15, 19),
    (b"var 1..2: x :: a(float);", Syntax, 1, 17, 22),
    (b"var 1..2: x :: a(1..1.5);", Syntax, 1, 20, 23),
    (b"var 1..2: x :: a(1.5..2);", Syntax, 1, 20, 22),
    (b"var 1..2: x :: a(1,);", Syntax, 1, 19, 20),
    (b"solve minimize true;", WrongArguments, 1, 15, 19),
    (b"solve minimize 1..3;", WrongArguments, 1, 15, 16),
    (b"solve maximize z; var 1..2: z;", Undeclared, 1, 15, 16),
    (b"solve satisfy :: a;", Syntax, 1, 14, 16),
    (b"solve satisfy; solve", TwoSolves, 1, 15, 20),
];

/// Annotations and `solve`.
#[test]
fn annotations(rt: HostRuntime) -> Result<(), Fail> {
    all_refused(&rt, rt.alloc(), &ANNOTATIONS)
}

#[rattlefmt::skip]
static UNKNOWN: [Case; 13] = [
    (b"constraint int_ge(1,2);", UnknownConstraint, 1, 11, 17),
    (b"constraint int_gt(1,2);", UnknownConstraint, 1, 11, 17),
    (b"constraint int_minus(1,2);", UnknownConstraint, 1, 11, 20),
    (b"constraint bool_ne(1,2);", UnknownConstraint, 1, 11, 18),
    (b"constraint bool_lin_eq(1,2);", UnknownConstraint, 1, 11, 22),
    (b"constraint int_pow(1,2);", UnknownConstraint, 1, 11, 18),
    (b"constraint array_bool_xor(1,2);", UnknownConstraint, 1, 11, 25),
    (b"constraint set_eq(1,2);", UnknownConstraint, 1, 11, 17),
    (b"constraint bool_clause_imp(1,2);", UnknownConstraint, 1, 11, 26),
    (b"constraint int_e(1,2);", UnknownConstraint, 1, 11, 16),
    (b"constraint int_eq_(1,2);", UnknownConstraint, 1, 11, 18),
    (b"constraint INT_EQ(1,2);", UnknownConstraint, 1, 11, 17),
    (b"constraint fzn_int_eq(1,2);", UnknownConstraint, 1, 11, 21),
];

/// Names that are no names of constraints, some of them nearly.
#[test]
fn unknown_names(rt: HostRuntime) -> Result<(), Fail> {
    all_refused(&rt, rt.alloc(), &UNKNOWN)
}

#[rattlefmt::skip]
static LENGTHS: [Case; 16] = [
    (b"constraint int_lin_eq([1],[1,2],3);", Lengths, 1, 33, 34),
    (b"constraint int_lin_le([1,2],[1],3);", Lengths, 1, 33, 34),
    (b"constraint int_lin_ne([],[1],3);", Lengths, 1, 30, 31),
    (b"constraint int_lin_eq_reif([1],[],3,true);", Lengths, 1, 40, 41),
    (b"constraint int_lin_le_reif([1,2],[1],3,true);", Lengths, 1, 43, 44),
    (b"constraint int_lin_ne_reif([1],[1,2],3,true);", Lengths, 1, 43, 44),
    (b"constraint array_int_maximum(1,[]);", Lengths, 1, 33, 34),
    (b"constraint array_int_minimum(1,[]);", Lengths, 1, 33, 34),
    (b"constraint fzn_table_int([],[]);", Lengths, 1, 30, 31),
    (b"constraint fzn_table_int([1,2],[1,2,3]);", Lengths, 1, 38, 39),
    (b"constraint table_int([],[]);", Lengths, 1, 26, 27),
    (b"constraint table_int([1,2],[1]);", Lengths, 1, 30, 31),
    (b"constraint fzn_cumulative([1],[1,2],[1],4);", Lengths, 1, 41, 42),
    (b"constraint fzn_cumulative([1,2],[1,2],[1],4);", Lengths, 1, 43, 44),
    (b"constraint cumulative([1],[1],[],4);", Lengths, 1, 34, 35),
    (b"constraint cumulative([],[1],[1],4);", Lengths, 1, 34, 35),
];

/// Lists whose lengths don't fit each other, and empty ones where there has to be a member.
#[test]
fn lengths(rt: HostRuntime) -> Result<(), Fail> {
    all_refused(&rt, rt.alloc(), &LENGTHS)
}

#[rattlefmt::skip]
static TYPES: [Case; 13] = [
    (b"var 1..2: x; constraint int_lin_eq([x],[x],1);", WrongArguments, 1, 36, 37),
    (b"var 1..2: x; constraint int_lin_le([1],[x],x);", WrongArguments, 1, 43, 44),
    (b"var 1..2: x; constraint int_lin_ne_reif([x],[x],1,true);", WrongArguments, 1, 41, 42),
    (b"var 1..2: x; constraint array_int_element(x,[x],x);", WrongArguments, 1, 45, 46),
    (b"var bool: p; constraint array_bool_element(1,[p],p);", WrongArguments, 1, 46, 47),
    (b"var 1..2: x; constraint table_int([x],[x]);", WrongArguments, 1, 39, 40),
    (b"var 1..2: x; constraint set_in(x,x);", WrongArguments, 1, 33, 34),
    (b"var bool: p; constraint int_eq(p,1);", WrongArguments, 1, 31, 32),
    (b"var 0..1: x; constraint bool_eq(x,true);", WrongArguments, 1, 32, 33),
    (b"constraint bool_clause([true],[1]);", WrongArguments, 1, 31, 32),
    (b"constraint all_different_int([1,true]);", WrongArguments, 1, 32, 36),
    (b"constraint bool2int(1,1);", WrongArguments, 1, 20, 21),
    (b"constraint bool2int(true,true);", WrongArguments, 1, 25, 29),
];

/// Variables where constants are needed, and numbers and bools in place of each other.
#[test]
fn types(rt: HostRuntime) -> Result<(), Fail> {
    all_refused(&rt, rt.alloc(), &TYPES)
}

/// Whether a file is refused with this code, line and span.
fn is_refused(alloc: Global, case: &Case) -> bool {
    let (bytes, code, line, from, to) = *case;
    let refused = Refused {
        code,
        line,
        from,
        to,
    };
    matches!(parse(alloc, bytes), Err(ParseFault::Refused(found)) if found == refused)
}

/// Fails where a file isn't refused so.
fn all_refused(rt: &impl Abort, alloc: Global, cases: &[Case]) -> Result<(), Fail> {
    for case in cases {
        assert!(rt; is_refused(alloc, case), "{case:?}");
    }
    Ok(())
}

/// Whether a file is refused with this code.
fn has_code(alloc: Global, bytes: &[u8], code: Code) -> bool {
    matches!(parse(alloc, bytes), Err(ParseFault::Refused(refused)) if refused.code == code)
}

/// A name of six letters for each number.
fn push_name(text: &mut Vec<u8>, number: u32) -> Result<(), AllocError> {
    let mut rest = number;
    text.push(b'x')?;
    for _ in 0..5 {
        text.push(b'a' + (rest % 26) as u8)?;
        rest /= 26;
    }
    Ok(())
}

/// So many variables, and a search for any values.
fn variables(alloc: Global, count: u32) -> Result<Vec<u8>, AllocError> {
    let mut text = Vec::new(alloc);
    for number in 0..count {
        text.extend_from_slice(b"var 0..1:")?;
        push_name(&mut text, number)?;
        text.push(b';')?;
    }
    text.extend_from_slice(b"solve satisfy;")?;
    Ok(text)
}

/// The same text so many times, and what stands before and behind it.
fn repeated(
    alloc: Global,
    before: &[u8],
    text: &[u8],
    count: u32,
    behind: &[u8],
) -> Result<Vec<u8>, AllocError> {
    let mut all = Vec::from_slice(alloc, before)?;
    for _ in 0..count {
        all.extend_from_slice(text)?;
    }
    all.extend_from_slice(behind)?;
    Ok(all)
}

#[test]
fn counts_variables(rt: HostRuntime) -> Result<(), Fail> {
    let alloc = rt.alloc();
    let most = parse(alloc, variables(alloc, 100_000)?.as_slice());
    assert!(rt; most.is_ok());
    assert!(rt; has_code(alloc, variables(alloc, 100_001)?.as_slice(), TooMany));
    Ok(())
}

/// What stands before a text, the text, how often it stands, what stands behind it, and the code that it is refused with,
/// or none.
type Long = (
    &'static [u8],
    &'static [u8],
    u32,
    &'static [u8],
    Option<Code>,
);

#[rattlefmt::skip]
static LONG: [Long; 5] = [
    (b"", b"constraint bool_clause([],[]);", 200_000, b"solve satisfy;", None),
    (b"", b"constraint bool_clause([],[]);", 200_001, b"solve satisfy;", Some(TooMany)),
    (b"array [1..1000000] of int: a = [", b"1,", 2_000_001, b"];", Some(TooMany)),
    (b"var 1..2: x :: a(", b"[", 63, b"1", Some(Syntax)),
    (b"var 1..2: x :: a(", b"[", 64, b"1", Some(TooDeep)),
];

/// 67,108,864 bytes and one more.
#[rattlefmt::skip]
static LONGEST: [Long; 2] = [
    (b"solve satisfy;", b"                                                                ", 1_048_575, b"                                                  ", None),
    (b"solve satisfy;", b"                                                                ", 1_048_575, b"                                                   ", Some(TooLong)),
];

/// Fails where a file isn't read or refused as a row says.
fn all_end(rt: &impl Abort, alloc: Global, rows: &[Long]) -> Result<(), Fail> {
    for (before, text, count, behind, code) in rows {
        let all = repeated(alloc, before, text, *count, behind)?;
        let read = parse(alloc, all.as_slice());
        let as_said = match code {
            None => read.is_ok(),
            Some(code) =>
                matches!(&read, Err(ParseFault::Refused(refused)) if refused.code == *code),
        };
        assert!(rt; as_said, "{count}");
    }
    Ok(())
}

/// The most constraints, elements, and levels of an annotation, and one more.
#[test]
fn counts_what_is_long(rt: HostRuntime) -> Result<(), Fail> {
    all_end(&rt, rt.alloc(), &LONG)
}

#[test]
fn counts_bytes(rt: HostRuntime) -> Result<(), Fail> {
    all_end(&rt, rt.alloc(), &LONGEST)
}

#[rattlefmt::skip]
const SCHEDULE: &[u8] = b"predicate fzn_cumulative(array [int] of var int: s,array [int] of var int: d,array [int] of var int: r,var int: b);\narray [1..4] of int: X_INTRODUCED_4_ = [3,2,2,1];\narray [1..4] of int: X_INTRODUCED_5_ = [1,1,2,1];\narray [1..2] of int: X_INTRODUCED_7_ = [1,-1];\nvar 0..8: X_INTRODUCED_0_;\nvar 0..8: X_INTRODUCED_1_;\nvar 0..8: X_INTRODUCED_2_;\nvar 0..8: X_INTRODUCED_3_;\nvar 0..8: makespan:: output_var;\nvar 2..10: X_INTRODUCED_6_:: var_is_introduced :: is_defined_var;\narray [1..4] of var int: s:: output_array([1..4]) = [X_INTRODUCED_0_,X_INTRODUCED_1_,X_INTRODUCED_2_,X_INTRODUCED_3_];\nconstraint fzn_cumulative(s,X_INTRODUCED_4_,X_INTRODUCED_5_,2);\nconstraint int_lin_eq(X_INTRODUCED_7_,[X_INTRODUCED_2_,X_INTRODUCED_6_],-2):: defines_var(X_INTRODUCED_6_);\nconstraint int_le(X_INTRODUCED_6_,makespan);\nconstraint int_lin_le(X_INTRODUCED_7_,[X_INTRODUCED_0_,makespan],-3);\nconstraint int_lin_le(X_INTRODUCED_7_,[X_INTRODUCED_1_,makespan],-2);\nconstraint int_lin_le(X_INTRODUCED_7_,[X_INTRODUCED_3_,makespan],-1);\nconstraint int_lin_le(X_INTRODUCED_7_,[X_INTRODUCED_0_,X_INTRODUCED_2_],-3);\nconstraint int_lin_le(X_INTRODUCED_7_,[X_INTRODUCED_1_,X_INTRODUCED_3_],-2);\nsolve :: int_search(s,first_fail,indomain_min,complete) minimize makespan;\n";

/// Each part of a file that ends before its last `;` is refused.
#[test]
fn parts_of_a_file(rt: HostRuntime) -> Result<(), Fail> {
    for length in 0..SCHEDULE.len() - 2 {
        assert!(rt; parse(rt.alloc(), &SCHEDULE[..length]).is_err(), "{length}");
    }
    assert!(rt; parse(rt.alloc(), SCHEDULE).is_ok());
    Ok(())
}

/// A variable with an annotation of so many brackets, and a search for any value.
fn nested(alloc: Global, levels: u32) -> Result<Vec<u8>, AllocError> {
    let opened = repeated(alloc, b"var 1..2: x :: a", b"(a", levels, b"")?;
    repeated(alloc, opened.as_slice(), b")", levels, b"; solve satisfy;")
}

#[test]
fn annotations_have_64_levels(rt: HostRuntime) -> Result<(), Fail> {
    let alloc = rt.alloc();
    assert!(rt; parse(alloc, nested(alloc, 64)?.as_slice()).is_ok());
    assert!(rt; has_code(alloc, nested(alloc, 65)?.as_slice(), TooDeep));
    Ok(())
}
