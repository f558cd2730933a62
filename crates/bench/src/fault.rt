//! Why there is nothing to print.
use run::{RunFault, State};
use std::alloc::AllocError;
use std::io;
use text::fault::CompileFault;
use thiserror::Error;
use typing::fault::AcceptFault;

#[derive(Debug, Drop, Error)]
pub enum Fault {
    #[error("there is not enough memory")]
    NoMemory(#[from(alloc)] AllocError),
    #[error("{0}")]
    System(#[from] io::Error),
    #[error("{0}")]
    Words(#[from] clap::Error),
    #[error("there is no such work: it is twice, rule, deep, arith or church")]
    NoWork,
    #[error("the text of a work is refused: {0}")]
    Text(u8),
    #[error("the record of a work is refused: {0}")]
    Record(u8),
    #[error("a call is refused: {0}")]
    Call(u8),
    #[error("a call ends with no number: {0:?}")]
    NoNumber(State),
}

impl From<CompileFault> for Fault {
    fn from(fault: CompileFault) -> Fault {
        Fault::Text(fault.number())
    }
}

impl From<AcceptFault> for Fault {
    fn from(fault: AcceptFault) -> Fault {
        Fault::Record(fault.number())
    }
}

impl From<RunFault> for Fault {
    fn from(fault: RunFault) -> Fault {
        Fault::Call(fault.number())
    }
}
