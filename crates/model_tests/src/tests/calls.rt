//! Arguments of each constraint: one that is missing, one too many, and one of another type in each place.

use fzn_parser::{Code, ParseFault, parse};
use std::alloc::{AllocError, Global};
use std::process::Abort;
use std::string::String;
use std::test::Fail;

/// The name of a constraint, and arguments that fit it.
type Call = (&'static str, &'static [&'static str]);

#[rattlefmt::skip]
static CALLS: [Call; 50] = [
    ("int_eq", &["1", "1"]), ("int_ne", &["1", "1"]), ("int_le", &["1", "1"]), ("int_lt", &["1", "1"]),
    ("bool_eq", &["true", "true"]), ("bool_le", &["true", "true"]), ("bool_lt", &["true", "true"]), ("bool2int", &["true", "1"]),
    ("bool_not", &["true", "true"]), ("bool_xor", &["true", "true", "true"]),
    ("int_lin_eq", &["[1]", "[1]", "1"]), ("int_lin_le", &["[1]", "[1]", "1"]), ("int_lin_ne", &["[1]", "[1]", "1"]),
    ("int_eq_reif", &["1", "1", "true"]), ("int_ne_reif", &["1", "1", "true"]), ("int_le_reif", &["1", "1", "true"]), ("int_lt_reif", &["1", "1", "true"]),
    ("bool_eq_reif", &["true", "true", "true"]), ("bool_le_reif", &["true", "true", "true"]), ("bool_lt_reif", &["true", "true", "true"]),
    ("int_lin_eq_reif", &["[1]", "[1]", "1", "true"]), ("int_lin_le_reif", &["[1]", "[1]", "1", "true"]), ("int_lin_ne_reif", &["[1]", "[1]", "1", "true"]),
    ("bool_and", &["true", "true", "true"]), ("array_bool_and", &["[true]", "true"]), ("bool_or", &["true", "true", "true"]), ("array_bool_or", &["[true]", "true"]),
    ("bool_clause", &["[true]", "[true]"]), ("bool_clause_reif", &["[true]", "[true]", "true"]),
    ("set_in", &["1", "{1}"]), ("set_in_reif", &["1", "{1}", "true"]),
    ("int_plus", &["1", "1", "1"]), ("int_times", &["1", "1", "1"]), ("int_div", &["1", "1", "1"]), ("int_mod", &["1", "1", "1"]), ("int_abs", &["1", "1"]),
    ("int_max", &["1", "1", "1"]), ("int_min", &["1", "1", "1"]), ("array_int_maximum", &["1", "[1]"]), ("array_int_minimum", &["1", "[1]"]),
    ("array_int_element", &["1", "[1]", "1"]), ("array_var_int_element", &["1", "[1]", "1"]),
    ("array_bool_element", &["1", "[true]", "true"]), ("array_var_bool_element", &["1", "[true]", "true"]),
    ("fzn_all_different_int", &["[1]"]), ("all_different_int", &["[1]"]),
    ("fzn_cumulative", &["[1]", "[1]", "[1]", "1"]), ("cumulative", &["[1]", "[1]", "[1]", "1"]),
    ("fzn_table_int", &["[1]", "[1]"]), ("table_int", &["[1]", "[1]"]),
];

/// The front of a constraint, with these arguments, and a comma where another one follows.
fn front(alloc: Global, name: &str, args: &[&str], follows: bool) -> Result<String, AllocError> {
    let mut text = format!(in alloc; "constraint {name}(")?;
    for (place, arg) in args.iter().enumerate() {
        if place > 0 {
            text.push_str(",")?;
        }
        text.push_str(arg)?;
    }
    if follows && !args.is_empty() {
        text.push_str(",")?;
    }
    Ok(text)
}

/// Whether the file is refused for wrong arguments at the token behind its front.
fn is_shown(alloc: Global, front: &str, token: &str) -> Result<bool, AllocError> {
    let text = format!(in alloc; "{front}{token};")?;
    Ok(match parse(alloc, text.as_bytes()) {
        Err(ParseFault::Refused(refused)) => {
            refused.code == Code::WrongArguments && refused.from as usize == front.len()
        }
        _ => false,
    })
}

/// An argument of another type.
fn other(arg: &str) -> &'static str {
    if arg == "true" { "1" } else { "true" }
}

/// Fails where the constraint with fewer arguments, with another one in their place, is not refused there.
fn place_is_checked(
    rt: &impl Abort,
    alloc: Global,
    name: &str,
    before: &[&str],
    arg: &str,
) -> Result<(), Fail> {
    let missing = front(alloc, name, before, false)?;
    let may_end = name == "bool_xor" && before.len() == 2;
    assert!(rt;
        may_end || is_shown(alloc, missing.as_str(), ")")?,
        "{missing}"
    );
    let wrong = front(alloc, name, before, true)?;
    assert!(rt; is_shown(alloc, wrong.as_str(), other(arg))?, "{wrong}");
    Ok(())
}

#[test]
fn places_are_checked(rt: HostRuntime) -> Result<(), Fail> {
    for (name, args) in &CALLS {
        for (place, arg) in args.iter().enumerate() {
            place_is_checked(&rt, rt.alloc(), name, &args[..place], arg)?;
        }
        let whole = front(rt.alloc(), name, args, true)?;
        assert!(rt; is_shown(rt.alloc(), whole.as_str(), "1")?, "{whole}");
    }
    Ok(())
}
