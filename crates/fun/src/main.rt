//! The program `fun`: compiles, checks and runs rule texts for people who write them.
//!
//! Words go in, a record, a type, an answer or an explanation comes out. The libraries judge the text
//! and the record and run the rule; what is done here is to read the words, to fetch the file and to
//! say clearly what is wrong with it.
#![tactic(auto)]

mod accept_explained;
mod checking;
mod command;
mod compiling;
mod counted;
mod explain;
mod failure;
mod figures;
mod header;
mod options;
mod outcome;
mod prepared;
mod record_file;
mod refusal;
mod run_options;
mod running;
mod shell;
mod source;
mod trace;
mod trying;

use crate::failure::Failure;
use crate::shell::Answer;
use std::io;
use std::process::ExitCode;

/// The status where what was asked for is refused or cannot be read.
const REFUSED: u8 = 1;

/// The status of a wrong call.
const WRONG_CALL: u8 = 2;

fn main(rt: HostRuntime) -> ExitCode {
    match command::run(&rt) {
        Ok(answer) => ended(&rt, printed(&rt, &answer), answer.refused),
        Err(failure) => failed(&rt, &failure),
    }
}

/// Prints an answer: first what stands beside it, which a pipe does not close. Where that cannot be printed, the answer
/// still is.
fn printed(rt: &HostRuntime, answer: &Answer) -> io::Result<()> {
    let _ = rt.eprint(&answer.beside);
    rt.print(&answer.out)
}

/// The status behind an answer. A closed pipe wants no more, and nothing is said of it.
fn ended(rt: &HostRuntime, printed: io::Result<()>, refused: bool) -> ExitCode {
    match printed {
        Ok(()) if refused => ExitCode::from(REFUSED),
        Ok(()) => ExitCode::SUCCESS,
        Err(error) if error.kind() == io::ErrorKind::BrokenPipe => ExitCode::SUCCESS,
        Err(error) => {
            let _ = eprintln!(rt; "error: cannot print the answer: {error}");
            ExitCode::from(REFUSED)
        }
    }
}

/// Tells why there is no answer. Where even that cannot be printed there is nobody left to tell.
fn failed(rt: &HostRuntime, failure: &Failure) -> ExitCode {
    match failure {
        // Help and version are answers.
        Failure::Words(error) if !error.use_stderr() => ended(rt, error.print(rt), false),
        Failure::Words(error) => {
            let _ = error.print(rt);
            ExitCode::from(WRONG_CALL)
        }
        Failure::WrongCall(why) => {
            let _ = eprintln!(rt; "error: {why}\n\nFor more information, try 'fun help'.");
            ExitCode::from(WRONG_CALL)
        }
        Failure::Object(text) => {
            let _ = println!(rt; "{text}");
            ExitCode::from(REFUSED)
        }
        Failure::NoMemory(_) | Failure::Told(_) => {
            let _ = eprint!(rt; "{failure}");
            ExitCode::from(REFUSED)
        }
    }
}
