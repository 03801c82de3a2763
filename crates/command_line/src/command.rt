ghost use Rattle.std.specs.Prelude.{◌≡◌, IfOk, false};
ghost use Rattle.clap.specs.Words.{app_of, rule_of, with_rule};
ghost use Rattle.command_line.specs.Lines.{value_rule, flag_rule, short_rule, short_flag_rule, bare_command, command};

use clap::{Arg, ArgAction, Command};
use std::alloc::{AllocError, Global};

/// `--name`, which takes a value.
fn value<'a>(alloc: Global, name: &'a str) -> Arg<'a>
    ensures rule { rule_of result ≡ value_rule name.now }
    ensures local { result.global ≡ false }
{
    Arg::new(alloc, name).long(name)
}

/// `--name`, which takes none.
fn flag<'a>(alloc: Global, name: &'a str) -> Arg<'a>
    ensures rule { rule_of result ≡ flag_rule name.now }
    ensures local { result.global ≡ false }
{
    value(alloc, name).action(ArgAction::SetTrue)
}

/// A flag of one character, which takes a value.
fn short<'a>(alloc: Global, id: &'a str, character: char) -> Arg<'a>
    ensures rule { rule_of result ≡ short_rule id.now character }
    ensures local { result.global ≡ false }
{
    Arg::new(alloc, id).short(character)
}

/// A flag of one character, which takes none.
fn short_flag<'a>(alloc: Global, id: &'a str, character: char) -> Arg<'a>
    ensures rule { rule_of result ≡ short_flag_rule id.now character }
    ensures local { result.global ≡ false }
{
    short(alloc, id, character).action(ArgAction::SetTrue)
}

/// The command before it has arguments.
fn bare<'a>(alloc: Global) -> Command<'a>
    ensures { app_of result ≡ bare_command }
{
    Command::new(alloc, "cachesolve")
        .no_binary_name(true)
        .disable_help_flag(true)
        .disable_version_flag(true)
}

/// The command with one argument more.
fn with<'a>(so_far: Command<'a>, arg: Arg<'a>) -> Result<Command<'a>, AllocError>
    requires { arg.global ≡ false }
    ensures { IfOk result (λ c. app_of c ≡ with_rule (app_of so_far.entry) (rule_of arg.entry)) }
{
    Ok(so_far.arg(arg)?)
}

/// The command that the program's words are read by.
pub(crate) fn command<'a>(alloc: Global) -> Result<Command<'a>, AllocError>
    ensures { IfOk result (λ c. app_of c ≡ command) }
{
    let with_workers = with(bare(alloc), short(alloc, "workers", 'p'))?;
    let with_stats = with(with_workers, short_flag(alloc, "stats", 's'))?;
    let with_cache = with(with_stats, value(alloc, "cache"))?;
    let with_key_words = with(with_cache, value(alloc, "key-words"))?;
    let with_nodes = with(with_key_words, value(alloc, "nodes"))?;
    let with_log = with(with_nodes, flag(alloc, "log"))?;
    let with_make = with(with_log, value(alloc, "make"))?;
    with(with_make, Arg::new(alloc, "FILE"))
}
