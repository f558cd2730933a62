//! The program `bench`: runs five rules as a controller does, each compiled once and called with changing readings.
//!
//! With no words it prints what some calls of each come to, which the gate compares. With words it makes many calls of
//! one rule and prints what they came to and how long they took; `tools/bench` lays that beside other languages.
#![tactic(auto)]

mod called;
mod check;
mod fault;
mod sets;
mod texts;
mod timing;
mod work;

use std::process::ExitCode;

fn main(rt: HostRuntime) -> ExitCode {
    match told(&rt) {
        Ok(()) => ExitCode::SUCCESS,
        Err(fault) => {
            // Where even that cannot be printed there is nobody left to tell.
            let _ = eprintln!(rt; "error: {fault}");
            ExitCode::FAILURE
        }
    }
}

/// Does what the words of the call ask for.
fn told(rt: &HostRuntime) -> Result<(), fault::Fault> {
    let words: Vec<String> = std::env::args(rt)?.collect(rt.alloc())?;
    if words.len() < 2 {
        return check::print(rt);
    }
    let asked = timing::Asked::read(rt.alloc(), words.as_slice())?;
    timing::print(rt, asked)
}
