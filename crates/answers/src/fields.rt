//! The fields of a line.
use crate::trouble::Trouble;
use hex::FromHexError;
use std::alloc::{AllocError, Global};
use std::str::FromStr;

/// The fields of a line that are still to be read; a space stands between two.
#[derive(Clone, Copy)]
pub(crate) struct Fields<'a> {
    rest: &'a str,
}

impl<'a> Fields<'a> {
    pub(crate) fn of(line: &'a str) -> Fields<'a> {
        Fields { rest: line }
    }

    /// The next field, which is empty where the line has ended.
    pub(crate) fn next(&mut self) -> &'a str {
        let (field, rest) = self.rest.split_once(' ').unwrap_or((self.rest, ""));
        self.rest = rest;
        field
    }

    /// All that is left, as one field.
    pub(crate) fn last(self) -> &'a str {
        self.rest
    }
}

/// A number that fields have.
pub(crate) trait Figure: FromStr {
    /// What is said where a field is no such number.
    const WANTED: &'static str;
}

impl Figure for usize {
    const WANTED: &'static str = "a count was expected";
}

impl Figure for u32 {
    const WANTED: &'static str = "a number from 0 to 4294967295 was expected";
}

impl Figure for i32 {
    const WANTED: &'static str = "a whole number of 32 bits was expected";
}

/// The number that a field is.
pub(crate) fn number<T: Figure>(field: &str) -> Result<T, Trouble>
where
    T::Err: Drop,
{
    field
        .parse::<T>()
        .map_err(|_| Trouble::Unreadable(T::WANTED))
}

/// Numbers that are joined by colons.
pub(crate) fn numbers(heap: Global, field: &str) -> Result<Vec<i32>, Trouble> {
    field
        .split(':')
        .map(|figure| number(figure))
        .try_collect(heap)
}

/// What a field has, unless it is `-`, which stands for nothing.
pub(crate) fn given<'a>(field: &'a str) -> Option<&'a str> {
    (field != "-").then_some(field)
}

/// The bytes that are written in hexadecimal.
pub(crate) fn bytes(heap: Global, digits: &str) -> Result<Vec<u8>, Trouble> {
    let Some(digits) = given(digits) else {
        return Ok(Vec::new(heap));
    };
    match hex::decode(heap, digits.as_bytes()) {
        Ok(bytes) => Ok(bytes),
        Err(FromHexError::OutOfMemory) => Err(Trouble::NoMemory(AllocError)),
        Err(_) => Err(Trouble::Unreadable("bytes in hexadecimal were expected")),
    }
}
