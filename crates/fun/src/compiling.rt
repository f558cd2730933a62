//! The command `compile`, from the file to the record.
use crate::counted::Counted;
use crate::failure::Failure;
use crate::prepared::{Prepared, record_of};
use crate::refusal::{Layer, Refusal};
use crate::shell::{Answer, Shell};
use crate::source;
use crate::source::RULE;
use clap::ArgMatches;
use messages::file::{STANDARD_INPUT, TextFile};
use serde_json::json;
use std::alloc::Global;
use std::fs;
use syntax::limits::MOST_RECORD;
use verdicts::verdict::{Accepted, Refused, verdict_on};
use verdicts::walk::Walk;

/// A text to compile.
#[derive(Drop)]
pub(crate) struct CompileOptions<'a> {
    file: &'a str,
    names: Vec<&'a str>,
    /// The file to write the record to, where it is not printed.
    out: Option<&'a str>,
    /// How many bytes the record may have.
    room: usize,
    /// Whether the record of a rule without a type is wanted too.
    unchecked: bool,
}

impl<'a> CompileOptions<'a> {
    /// Reads what the options say. More room than a record can have is as good as enough.
    pub(crate) fn read(
        heap: Global,
        matches: &ArgMatches<'a>,
    ) -> Result<CompileOptions<'a>, Failure> {
        Ok(CompileOptions {
            file: matches.get_str("file").unwrap_or(STANDARD_INPUT),
            names: matches
                .get_strs("names")
                .unwrap_or(&[])
                .iter()
                .copied()
                .collect(heap)?,
            out: matches.get_str("out"),
            room: matches
                .get_one::<usize>("room")
                .unwrap_or(MOST_RECORD)
                .min(MOST_RECORD),
            unchecked: matches.get_flag("unchecked"),
        })
    }
}

/// Compiles a text, and prints its record or writes it to a file.
pub(crate) fn compile(shell: Shell, asked: &CompileOptions) -> Result<Answer, Failure> {
    let bytes = source::read(shell.rt, asked.file, RULE)?;
    let prepared = Prepared::new(
        shell,
        asked.file,
        bytes.as_slice(),
        asked.names.as_slice(),
        asked.room,
    )?;
    let rule = prepared.rule();
    let record = record_of(shell, rule)?;
    if !asked.unchecked {
        accepted(shell, rule.file(), record.as_slice())?;
    }
    match asked.out {
        Some(out) => written(shell, asked.file, out, record.as_slice()),
        None => shown(shell, rule.file(), record.as_slice()),
    }
}

/// What is told of the rule of a record that was made from a text, or why no controller accepts it.
pub(crate) fn accepted(shell: Shell, file: TextFile, record: &[u8]) -> Result<Accepted, Failure> {
    match verdict_on(shell.heap(), record)? {
        Ok(accepted) => Ok(accepted),
        Err(refused) => Err(rule_refused(shell, file, refused)),
    }
}

/// The failure for a record that was made from a text and is not accepted.
pub(crate) fn rule_refused(shell: Shell, file: TextFile, refused: Refused) -> Failure {
    match refused.in_text(shell.heap(), file) {
        Ok(message) => Refusal {
            file: file.name,
            layer: Layer::Rule,
            number: refused.fault.number(),
            place: refused.fault.place(),
            message,
        }
        .failure(shell),
        Err(error) => Failure::NoMemory(error),
    }
}

/// Prints a record alone, so that the output can be handed on, and its size beside it.
fn shown(shell: Shell, file: TextFile, record: &[u8]) -> Result<Answer, Failure> {
    let heap = shell.heap();
    let digits = hex::encode(heap, record)?;
    let (bytes, nodes) = (record.len(), Walk::over(record).count());
    if shell.json {
        let object = json!(in heap; {
            "file": file.name,
            "outcome": "compiled",
            "record": digits.as_str(),
            "bytes": bytes,
            "nodes": nodes
        })?
        .to_string(heap)?;
        return Ok(Answer::plain(heap, format!(in heap; "{object}\n")?));
    }
    Ok(Answer {
        out: format!(in heap; "{digits}\n")?,
        beside: format!(in heap; "{}, {}\n", Counted(bytes, "byte"), Counted(nodes, "node"))?,
        refused: false,
    })
}

/// Writes a record to a file, which must not be the one that it was made from.
fn written(shell: Shell, file: &str, out: &str, record: &[u8]) -> Result<Answer, Failure> {
    let heap = shell.heap();
    if file != STANDARD_INPUT && source::is_same(shell.rt, file, out) {
        return Err(Failure::wrong_call(
            heap,
            &format_args!("{out} is the rule's text: the record would be written over it"),
        ));
    }
    if let Err(error) = fs::write(shell.rt, out, record) {
        return Err(Failure::told(heap, &format_args!("error: cannot write {out}: {error}\n")));
    }
    let (bytes, nodes) = (record.len(), Walk::over(record).count());
    if shell.json {
        let object = json!(in heap; {
            "file": out,
            "outcome": "compiled",
            "bytes": bytes,
            "nodes": nodes
        })?
        .to_string(heap)?;
        return Ok(Answer::plain(heap, format!(in heap; "{object}\n")?));
    }
    let beside = format!(in heap;
        "{out}: {}, {}\n",
        Counted(bytes, "byte"),
        Counted(nodes, "node")
    )?;
    Ok(Answer {
        out: String::new(heap),
        beside,
        refused: false,
    })
}
