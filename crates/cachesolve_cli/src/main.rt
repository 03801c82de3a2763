//! The program: a FlatZinc file, or a model made from a number; its answer on standard output.
//!
//! What it is for: [`running::run`] is the one call that the program makes, and the place where all that is promised to a
//! user stands.
//!
//! What it promises: a run that ends with status 0 has written exactly the text of a right answer for the model that its words
//! ask for, each other status has its cause and its message, and a model is decided where memory, the node budget and the calls
//! of the system allow. `specs/Headline.antt` has the words of these promises, `specs/Ways.antt` the statuses and messages of a run, and
//! `specs/Words.antt` those where the program's words can't be had.
//!
//! What it stands on: cs_base, command_line, fzn_model, fzn_parser, model_gen, solver, solution_out. That `main` asks the system for the words, and
//! hands them with the real input and outputs to `run`, is trusted; what it makes of them is proved.
#![tactic(auto)]

ghost use Rattle.std.specs.Prelude.{◌≡◌};
ghost use Rattle.std.specs.Process.{exit_status};

// The whole run.
mod ending;
mod running;

// The words that the system has for the program.
mod program_words;
#[cfg(test)]
mod tests;

use cs_base::{Status, StdSink, StdSource, Words};
use program_words::{WordsFault, behind_name, cause_of, end_without};
use solver::Meter;
use std::process::ExitCode;
use std::{env, io};

/// The program's words without its name.
fn words_of(rt: &HostRuntime) -> Result<Words, WordsFault> {
    match env::args(rt) {
        Ok(all) => behind_name(rt.alloc(), all),
        Err(error) => Err(cause_of(&error)),
    }
}

/// The exit status with the number of the status.
fn exit_code(status: Status) -> ExitCode
    ensures { exit_status result ≡ status.code }
{
    ExitCode::from(status.code)
}

fn main(rt: HostRuntime) -> ExitCode {
    let mut err = StdSink::new(rt.stderr());
    let words = match words_of(&rt) {
        Ok(words) => words,
        Err(fault) => return exit_code(end_without(fault, &mut err)),
    };
    let mut source = StdSource::new(&rt);
    let mut out = StdSink::new(io::writer(&rt));
    let mut meter = Meter::new();
    let status = running::run(
        &rt,
        rt.alloc(),
        &words,
        &mut source,
        &mut out,
        &mut err,
        &mut meter,
    );
    exit_code(status)
}
