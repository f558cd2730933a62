//! The calls of a store and their answers, as lines have them.
use crate::fields::number;
use crate::trouble::Trouble;
use std::fmt;
use values::Value;

/// A call of a store.
#[derive(Clone, Copy)]
pub(crate) enum Call {
    Clear,
    Free,
    Extend { handle: u32, value: i32 },
    Look { handle: u32, index: u32 },
}

impl Call {
    /// The call that is written so. Handles go by the order in which `extend` answered these; one behind `!` is meant as
    /// it stands.
    pub(crate) fn read(text: &str, handles: &[u32]) -> Result<Call, Trouble> {
        if text == "c" {
            Ok(Call::Clear)
        } else if text == "f" {
            Ok(Call::Free)
        } else if let Some(rest) = text.strip_prefix('e') {
            let (handle, value) = handle_and(rest, handles)?;
            let value = number(value)?;
            Ok(Call::Extend { handle, value })
        } else if let Some(rest) = text.strip_prefix('l') {
            let (handle, index) = handle_and(rest, handles)?;
            let index = number(index)?;
            Ok(Call::Look { handle, index })
        } else {
            Err(Trouble::Unreadable("no such call of a store"))
        }
    }
}

/// The handle in `H:X`, and the text X.
fn handle_and<'a>(text: &'a str, handles: &[u32]) -> Result<(u32, &'a str), Trouble> {
    let (handle, rest) = text
        .split_once(':')
        .ok_or(Trouble::Unreadable("a handle and a colon were expected"))?;
    let handle = match handle.strip_prefix('!') {
        Some(bare) => number(bare)?,
        None => handle_at(handles, number(handle)?),
    };
    Ok((handle, rest))
}

/// The handle that was answered as the so-many-th, from 1, and 0 itself; one that has no list where there is none.
fn handle_at(handles: &[u32], order: usize) -> u32 {
    // A line may ask for a handle that was never answered, and it is the store that is to refuse it.
    order
        .checked_sub(1)
        .map_or(0, |at| handles.get(at).copied().unwrap_or(u32::MAX))
}

/// What a store answers.
#[derive(Clone, Copy)]
pub(crate) enum Answer {
    Cleared,
    /// How much room is free.
    Free(u32),
    /// The list is extended, and its handle is the so-many-th.
    Extended(usize),
    Found(Value),
}

impl fmt::Display for Answer {
    fn fmt<W: fmt::Write>(&self, f: &mut fmt::Formatter<W>) -> fmt::Result {
        match *self {
            Answer::Cleared => write!(f, "ok"),
            Answer::Free(room) => write!(f, "free={room}"),
            Answer::Extended(order) => write!(f, "ok #{order}"),
            Answer::Found(Value::Number(number)) => write!(f, "ok {number}"),
            Answer::Found(Value::Truth(truth)) => write!(f, "ok {truth}"),
            Answer::Found(Value::Function { node, .. }) => write!(f, "ok fun{node}"),
        }
    }
}
