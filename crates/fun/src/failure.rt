//! Why the program ends without an answer.
use crate::refusal::Refusal;
use crate::shell::Shell;
use std::alloc::{AllocError, Global};
use std::fmt::Display;
use thiserror::Error;

/// An `anyhow::Error` has room for 120 bytes of a message, and those told here have several lines.
#[derive(Debug, Drop, Error)]
pub enum Failure {
    /// There was no memory to answer in.
    #[error("error: there is not enough memory\n")]
    NoMemory(#[from(alloc)] AllocError),
    /// The words of the call are wrong, or ask for help or the version.
    #[error("{0}")]
    Words(#[from] clap::Error),
    /// A word of the call has no value that it may have.
    #[error("{0}")]
    WrongCall(String),
    /// A message for whoever called.
    #[error("{0}")]
    Told(String),
    /// The same for a tool, which reads standard output.
    #[error("{0}")]
    Object(String),
}

impl Failure {
    /// The failure that a message tells; that there is no memory where it cannot be kept.
    pub(crate) fn told(heap: Global, message: &impl Display) -> Failure {
        match message.to_string(heap) {
            Ok(message) => Failure::Told(message),
            Err(error) => Failure::NoMemory(error),
        }
    }

    /// A wrong call, and why it is wrong.
    pub(crate) fn wrong_call(heap: Global, why: &impl Display) -> Failure {
        match why.to_string(heap) {
            Ok(why) => Failure::WrongCall(why),
            Err(error) => Failure::NoMemory(error),
        }
    }

    /// What a refusal tells, as the call wants it printed.
    pub(crate) fn refused(shell: Shell, refusal: &Refusal) -> Failure {
        let told = if shell.json {
            refusal
                .object(shell.heap())
                .map(|object| Failure::Object(object))
        } else {
            refusal.shown(shell).map(|shown| Failure::Told(shown))
        };
        match told {
            Ok(failure) => failure,
            Err(error) => Failure::NoMemory(error),
        }
    }
}
