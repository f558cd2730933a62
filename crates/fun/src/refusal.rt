//! Refusals as the program prints them: for people, or as an object for tools.
use crate::failure::Failure;
use crate::shell::Shell;
use messages::frame::Message;
use serde_json::{Value, json};
use std::alloc::{AllocError, Global};

/// The layer that refused: the text, the rule in its record, or the run.
#[derive(Clone, Copy)]
pub(crate) enum Layer {
    Name,
    Text,
    Rule,
    Run,
}

impl Layer {
    /// The layer in a word.
    fn word(self) -> &'static str {
        match self {
            Layer::Name => "name",
            Layer::Text => "text",
            Layer::Rule => "rule",
            Layer::Run => "run",
        }
    }
}

/// A refusal with its file and its message.
#[derive(Drop)]
pub(crate) struct Refusal<'a> {
    pub(crate) file: &'a str,
    pub(crate) layer: Layer,
    pub(crate) number: u8,
    pub(crate) place: usize,
    pub(crate) message: Message<'a>,
}

impl Refusal<'_> {
    /// The message, in colours where the call has them.
    pub(crate) fn shown(&self, shell: Shell) -> Result<String, AllocError> {
        self.message.painted(shell.paint).to_string(shell.heap())
    }

    /// The same as an object in one line.
    pub(crate) fn object(&self, heap: Global) -> Result<String, AllocError> {
        let reason = self.message.reason();
        let why = reason.why.to_string(heap)?;
        let help = reason.help.to_string(heap)?;
        let (line, column) = match self.message.position() {
            Some((line, column)) => (Value::from(line), Value::from(column)),
            None => (Value::Null, Value::Null),
        };
        json!(in heap; {
            "file": self.file,
            "outcome": "refused",
            "layer": self.layer.word(),
            "number": self.number,
            "place": self.place,
            "line": line,
            "column": column,
            "title": reason.title,
            "why": why.as_str(),
            "help": help.as_str()
        })?
        .to_string(heap)
    }

    pub(crate) fn failure(&self, shell: Shell) -> Failure {
        Failure::refused(shell, self)
    }
}
