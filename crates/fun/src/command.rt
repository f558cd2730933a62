//! The commands, from the words of a call to what is printed.
use crate::checking::CheckOptions;
use crate::compiling::CompileOptions;
use crate::explain::{KNOWN, explanation};
use crate::failure::Failure;
use crate::options::program;
use crate::run_options::Attempt;
use crate::shell::{Answer, Shell};
use crate::{checking, compiling, running, trying};
use clap::ArgMatches;
use messages::paint::Paint;
use std::alloc::Global;
use std::env;
use std::io::IsTerminal;

/// Does what the words of the call ask for.
pub(crate) fn run(rt: &HostRuntime) -> Result<Answer, Failure> {
    let heap = rt.alloc();
    let words = words(rt)?;
    if words.len() < 2 {
        let help = program(heap)?.render_help()?;
        return Ok(Answer::plain(heap, help));
    }
    let matches = program(heap)?.try_get_matches_from(words.as_slice())?;
    let Some((name, options)) = matches.subcommand() else {
        let help = program(heap)?.render_help()?;
        return Ok(Answer::plain(heap, help));
    };
    let shell = Shell {
        rt,
        paint: paint_of(rt, options),
        json: name != "explain" && options.get_flag("json"),
    };
    match name {
        "run" => running::run(shell, &Attempt::read(heap, options)?),
        "trial" => trying::try_out(shell, &Attempt::read(heap, options)?),
        "compile" => compiling::compile(shell, &CompileOptions::read(heap, options)?),
        "check" => checking::check(shell, &CheckOptions::read(heap, options)?),
        _ => explain(heap, options.get_str("number").unwrap_or("")),
    }
}

/// The words of the call, the program's own name first.
fn words(rt: &HostRuntime) -> Result<Vec<String>, Failure> {
    let heap = rt.alloc();
    match env::args(rt) {
        Ok(words) => Ok(words.collect(heap)?),
        Err(error) => Err(Failure::wrong_call(
            heap,
            &format_args!(
                "cannot read the words of the call: {error}; names and files are given as UTF-8"
            ),
        )),
    }
}

/// The colours that a call asks for.
fn paint_of(rt: &HostRuntime, options: &ArgMatches) -> Paint {
    match options.get_str("color") {
        Some("always") => Paint::COLORS,
        Some("never") => Paint::PLAIN,
        _ if rt.stderr().is_terminal() => Paint::COLORS,
        _ => Paint::PLAIN,
    }
}

fn explain(heap: Global, number: &str) -> Result<Answer, Failure> {
    match explanation(number) {
        Some(text) => Ok(Answer::plain(heap, String::from_str(heap, text)?)),
        None => Err(Failure::wrong_call(
            heap,
            &format_args!("there is no refusal `{number}`: the refusals are {KNOWN}"),
        )),
    }
}
