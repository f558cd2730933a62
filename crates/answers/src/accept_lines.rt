//! Lines of the kind `accept`: `T1 T2 B RECORD`, how many entries the two work tables and the type
//! buffer have, and the record in hexadecimal.
use crate::fields::{Fields, bytes, number};
use crate::trouble::Trouble;
use std::alloc::{AllocError, Global};
use typing::accept::accept;
use typing::rule::Rule;

/// Accepts the record of one line.
pub(crate) fn answer(heap: Global, mut fields: Fields) -> Result<String, Trouble> {
    let mut first = vec![in heap; 0u16; number(fields.next())?]?;
    let mut second = vec![in heap; 0u16; number(fields.next())?]?;
    let mut types = vec![in heap; 0u16; number(fields.next())?]?;
    let record = bytes(heap, fields.last())?;
    let count = accept(
        record.as_slice(),
        &mut first,
        &mut second,
        &mut types,
        &mut Rule::new(),
    )?;
    let mut told = format!(in heap; "ok {count} ")?;
    tell_entries(&mut told, &types[..count])?;
    Ok(told)
}

/// Puts the entries of a type, joined by commas, behind what is told already: there may be millions.
pub(crate) fn tell_entries(told: &mut String, entries: &[u16]) -> Result<(), AllocError> {
    for (at, entry) in entries.iter().enumerate() {
        if at > 0 {
            told.push(',')?;
        }
        write!(told, "{entry}")?;
    }
    Ok(())
}
