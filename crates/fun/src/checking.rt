//! The command `check`, from files to types.
use crate::compiling::accepted;
use crate::failure::Failure;
use crate::figures::Figures;
use crate::prepared::{Prepared, record_of};
use crate::record_file::fetch;
use crate::refusal::{Layer, Refusal};
use crate::shell::{Answer, Shell};
use crate::source;
use crate::source::RULE;
use clap::ArgMatches;
use lexer::scan::is_name;
use serde_json::json;
use std::alloc::{AllocError, Global};
use syntax::limits::MOST_RECORD;
use verdicts::verdict::{Accepted, verdict_on};

/// Files to check.
#[derive(Drop)]
pub(crate) struct CheckOptions<'a> {
    files: Vec<&'a str>,
    /// The names of the readings that the texts may use.
    names: Vec<&'a str>,
    /// Whether the files are records.
    record: bool,
}

impl<'a> CheckOptions<'a> {
    /// Reads what the options say. Behind the first file a word that is a name names a reading.
    pub(crate) fn read(
        heap: Global,
        matches: &ArgMatches<'a>,
    ) -> Result<CheckOptions<'a>, Failure> {
        let record = matches.get_flag("record");
        let mut files = Vec::new(heap);
        let mut names = Vec::new(heap);
        for word in matches.get_strs("words").unwrap_or(&[]) {
            if files.is_empty() || record || !is_name(word.as_bytes()) {
                files.push(*word)?;
            } else {
                names.push(*word)?;
            }
        }
        Ok(CheckOptions {
            files,
            names,
            record,
        })
    }
}

/// Checks one file after another. One that is refused does not keep the others from being checked.
pub(crate) fn check(shell: Shell, asked: &CheckOptions) -> Result<Answer, Failure> {
    let heap = shell.heap();
    let mut answer = Answer::plain(heap, String::new(heap));
    for file in &asked.files {
        let checked = if asked.record {
            check_record(shell, file)
        } else {
            check_text(shell, file, asked.names.as_slice(), &mut answer.beside)
        };
        match checked {
            Ok(told) => answer.out.push_str(told.as_str())?,
            Err(Failure::Told(message)) => {
                answer.refused = true;
                answer.beside.push_str(message.as_str())?;
            }
            Err(Failure::Object(object)) => {
                answer.refused = true;
                answer.out.push_str(object.as_str())?;
                answer.out.push('\n')?;
            }
            Err(failure) => return Err(failure),
        }
    }
    Ok(answer)
}

/// The type of the rule whose text is in a file; readings that it does not use are told beside it.
fn check_text(
    shell: Shell,
    file: &str,
    names: &[&str],
    beside: &mut String,
) -> Result<String, Failure> {
    let bytes = source::read(shell.rt, file, RULE)?;
    let prepared = Prepared::new(shell, file, bytes.as_slice(), names, MOST_RECORD)?;
    let rule = prepared.rule();
    let record = record_of(shell, rule)?;
    let accepted = accepted(shell, rule.file(), record.as_slice())?;
    if !shell.json {
        prepared.warn_of_unused(shell.heap(), accepted.unused.as_slice(), beside)?;
    }
    Ok(told(shell, rule.file().name, record.len(), &accepted)?)
}

/// The type of the rule whose record is in a file.
fn check_record(shell: Shell, file: &str) -> Result<String, Failure> {
    let heap = shell.heap();
    let found = fetch(shell.rt, file)?;
    let record = found.bytes.as_slice();
    match verdict_on(heap, record)? {
        Ok(accepted) => Ok(told(shell, found.from.name, record.len(), &accepted)?),
        Err(refused) => {
            let refusal = Refusal {
                file: found.from.name,
                layer: Layer::Rule,
                number: refused.fault.number(),
                place: refused.fault.place(),
                message: refused.in_file(heap, found.from)?,
            };
            Err(refusal.failure(shell))
        }
    }
}

/// The type, then the figures.
fn told(shell: Shell, file: &str, bytes: usize, rule: &Accepted) -> Result<String, AllocError> {
    let heap = shell.heap();
    let type_words = rule.type_words.as_str();
    if shell.json {
        let object = json!(in heap; {
            "file": file,
            "outcome": "accepted",
            "type": type_words,
            "bytes": bytes,
            "nodes": rule.nodes,
            "readings": rule.readings
        })?
        .to_string(heap)?;
        return format!(in heap; "{object}\n");
    }
    let figures = Figures {
        bytes,
        nodes: rule.nodes,
        readings: rule.readings,
    };
    format!(in heap; "{file}: {type_words}\n{figures}\n")
}
