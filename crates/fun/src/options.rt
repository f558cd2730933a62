//! The commands, and what may stand behind each.
use clap::{Arg, ArgAction, Command, value_parser};
use std::alloc::{AllocError, Global};

const VERSION: &str = "0.9.0";

const ABOUT: &str = "Compiles, checks and runs FUN rules for heat-pump controllers";

/// What stands below the help of the program.
const STATUS: &str = "\
Status: 0 where it was done, 1 where a rule is refused or a file cannot be read, 2 for a wrong call.
A rule that was run ends with 0, whether it has an answer, waits for more steps or is short of room.

A file may name its readings itself, in a first line as `# readings: coil, flow`.";

const FILE: &str = "The rule's text; - reads standard input";

/// All commands.
pub(crate) fn program<'a>(heap: Global) -> Result<Command<'a>, AllocError> {
    let color = Arg::new(heap, "color")
        .long("color")
        .value_name("WHEN")
        .value_parser(["auto", "always", "never"].as_slice())
        .default_value("auto")
        .global(true)
        .help("Whether messages have colours: auto gives them to a terminal");
    Command::new(heap, "fun")
        .bin_name("fun")?
        .version(VERSION)
        .about(ABOUT)
        .after_help(STATUS)
        .subcommand_required(true)
        .args_override_self(true)
        .arg(color)?
        .subcommand(run(heap)?)?
        .subcommand(trial(heap)?)?
        .subcommand(compile(heap)?)?
        .subcommand(check(heap)?)?
        .subcommand(explain(heap)?)
}

fn run<'a>(heap: Global) -> Result<Command<'a>, AllocError> {
    let slots = Arg::new(heap, "slots")
        .long("slots")
        .value_name("N,N,..")
        .value_delimiter(',')
        .action(ArgAction::Append)
        .value_parser(value_parser!(u32).range(1..=1_000_000_000))
        .conflicts_with("steps")?
        .help("Grant so many steps one time after another");
    Command::new(heap, "run")
        .about("Run a rule on readings; print its answer, its steps and the room that it used")
        .arg(file(heap))?
        .arg(values(heap))?
        .arg(steps(heap))?
        .arg(slots)?
        .arg(store(heap, ["linked", "flat", "both"].as_slice()))?
        .arg(room(heap))?
        .arg(
            Arg::new(heap, "trace")
                .long("trace")
                .action(ArgAction::SetTrue)
                .help("Print a line for each slot; without --slots, a slot is one step"),
        )?
        .arg(json(heap))
}

fn trial<'a>(heap: Global) -> Result<Command<'a>, AllocError> {
    Command::new(heap, "trial")
        .about("Compile, accept and run a rule in one call of the library")
        .arg(file(heap))?
        .arg(values(heap))?
        .arg(steps(heap))?
        .arg(store(heap, ["linked", "flat"].as_slice()))?
        .arg(room(heap))?
        .arg(json(heap))
}

fn compile<'a>(heap: Global) -> Result<Command<'a>, AllocError> {
    let out = Arg::new(heap, "out")
        .short('o')
        .long("out")
        .value_name("RECORD")
        .help("Write the bytes to this file instead of printing them in hexadecimal");
    let room = Arg::new(heap, "room")
        .long("room")
        .value_name("BYTES")
        .value_parser(value_parser!(usize))
        .help("Refuse a record of more bytes than this");
    let unchecked = Arg::new(heap, "unchecked")
        .long("unchecked")
        .action(ArgAction::SetTrue)
        .help("Print the record of a rule that has no type too: no controller accepts it");
    Command::new(heap, "compile")
        .about("Print the record of a rule, which a controller is sent")
        .arg(file(heap))?
        .arg(names(heap))?
        .arg(out)?
        .arg(room)?
        .arg(unchecked)?
        .arg(json(heap))
}

fn check<'a>(heap: Global) -> Result<Command<'a>, AllocError> {
    let words = Arg::new(heap, "words")
        .value_name("FILE|NAME")
        .required(true)
        .num_args(1..)
        .action(ArgAction::Append)
        .help(
            "The rules' texts, and the names of their readings: a word that is no name is a file, as the first always is",
        );
    let record = Arg::new(heap, "record")
        .long("record")
        .action(ArgAction::SetTrue)
        .help("The files are records, in bytes or in hexadecimal");
    Command::new(heap, "check")
        .about("Print the types of rules and the sizes of their records")
        .arg(words)?
        .arg(record)?
        .arg(json(heap))
}

fn explain<'a>(heap: Global) -> Result<Command<'a>, AllocError> {
    let number = Arg::new(heap, "number")
        .value_name("NUMBER")
        .required(true)
        .help("The number of a refusal");
    Command::new(heap, "explain")
        .about("Say what a refusal means, with an example")
        .arg(number)
}

fn file<'a>(heap: Global) -> Arg<'a> {
    Arg::new(heap, "file")
        .value_name("FILE")
        .required(true)
        .help(FILE)
}

fn names<'a>(heap: Global) -> Arg<'a> {
    Arg::new(heap, "names")
        .value_name("NAME")
        .num_args(0..)
        .action(ArgAction::Append)
        .help("The names of the readings, in their order; at most 8")
}

fn values<'a>(heap: Global) -> Arg<'a> {
    Arg::new(heap, "values")
        .value_name("NAME=VALUE")
        .num_args(0..)
        .action(ArgAction::Append)
        .help("The readings, each its name and a number, in their order; at most 8")
}

fn steps<'a>(heap: Global) -> Arg<'a> {
    Arg::new(heap, "steps")
        .long("steps")
        .value_name("N")
        .value_parser(value_parser!(u32).range(1..=1_000_000_000))
        .default_value("1000000")
        .help("Grant so many steps")
}

fn store<'a>(heap: Global, stores: &'a [&'a str]) -> Arg<'a> {
    Arg::new(heap, "store")
        .long("store")
        .value_name("STORE")
        .value_parser(stores)
        .default_value("linked")
        .help("The store that the run is lent")
}

fn room<'a>(heap: Global) -> Arg<'a> {
    Arg::new(heap, "room")
        .long("room")
        .value_name("N")
        .value_parser(value_parser!(usize))
        .default_value("256")
        .help("Lend the store so many cells or slots, at most 65535")
}

fn json<'a>(heap: Global) -> Arg<'a> {
    Arg::new(heap, "json")
        .long("json")
        .action(ArgAction::SetTrue)
        .help("Print an object of JSON for each file instead of text")
}
