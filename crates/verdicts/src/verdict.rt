//! Whether a record is accepted.
ghost use Rattle.std.specs.Prelude.{IfOk};
ghost use Rattle.verdicts.specs.Told.{Told};

use crate::words::in_words;
use std::alloc::{AllocError, Global};
use syntax::limits::MOST_NODES;
use syntax::node::Node;
use typing::accept::accept;
use typing::fault::AcceptFault;
use typing::rule::Rule;

/// How many entries a work table needs at most: 3 for each node, and 2.
pub const TABLE: usize = 3 * MOST_NODES + 2;

/// How many entries of a type are written down. A type can have far more than any memory.
pub const MOST_ENTRIES: usize = 65_536;

/// What is told of an accepted rule.
#[derive(Drop)]
pub struct Accepted {
    pub nodes: usize,
    pub readings: usize,
    /// Its most general type, in words.
    pub type_words: String,
    /// The readings that it does not use, counted from 0.
    pub unused: Vec<usize>,
}

/// A record that is not accepted, and why.
#[derive(Clone, Copy)]
pub struct Refused<'a> {
    pub record: &'a [u8],
    pub fault: AcceptFault,
}

/// Asks whether a record is accepted, with tables that are long enough for every record.
pub fn verdict_on<'a>(
    heap: Global,
    record: &'a [u8],
) -> Result<Result<Accepted, Refused<'a>>, AllocError>
    ensures { IfOk result (Told record.now) }
{
    let mut first = vec![in heap; 0u16; TABLE]?;
    let mut second = vec![in heap; 0u16; TABLE]?;
    let mut types = vec![in heap; 0u16; MOST_ENTRIES]?;
    let mut rule = Rule::new();
    // The words of a type may fail for want of memory, and what `map` calls takes no `?` along.
    match accept(record, &mut first, &mut second, &mut types, &mut rule) {
        Ok(count) => Ok(Ok(Accepted {
            nodes: rule.received.nodes.len(),
            readings: rule.received.readings,
            type_words: in_words(heap, &types[..count])?,
            unused: unused_readings(heap, &rule)?,
        })),
        Err(fault) => Ok(Err(Refused { record, fault })),
    }
}

/// The readings that no node of a rule reads.
pub fn unused_readings(heap: Global, rule: &Rule) -> Result<Vec<usize>, AllocError> {
    let mut unused = Vec::new(heap);
    for reading in 0..rule.received.readings {
        let is_read = rule.received.nodes.iter().any(
            |node| matches!(*node, Node::Reading(read) if usize::from(read) == reading),
        );
        if !is_read {
            unused.push(reading)?;
        }
    }
    Ok(unused)
}
