//! Records that are not accepted.
use std::alloc::{AllocError, Global};
use std::io;
use syntax::limits::{HEAD, MOST_NODES};
use typing::fault::AcceptFault;
use verdicts::of_record::{Form, RecordFile};
use verdicts::verdict::{Refused, verdict_on};

/// Records that break before their first node.
const FRONTS: [&[u8]; 6] = [
    &[],
    &[0, 3, 1, 0],
    &[0, 0],
    &[0, 3, 2, 0, 2],
    &[0, 1, 1],
    &[0, 3, 1, 9, 2],
];

/// Records that break at a node.
const TREES: [&[u8]; 7] = [
    &[0, 8, 1, 0, 8, 1, 0, 0, 0, 1],
    &[0, 3, 1, 0, 11],
    &[0, 5, 1, 0, 1, 0, 255],
    &[0, 4, 1, 1, 4, 0],
    &[0, 6, 1, 1, 5, 4, 0, 2],
    &[0, 4, 1, 0, 2, 3],
    &[0, 9, 1, 0, 8, 1, 0, 0, 0, 1, 2],
];

/// Prints each record's message, and last what only a caller of the library can meet: the programs lend tables that
/// are long enough.
pub(crate) fn show_all(rt: &HostRuntime) -> io::Result<()> {
    for record in FRONTS.iter().chain(&TREES) {
        of_bytes(rt, record)?;
    }
    of_bytes(rt, deep(rt.alloc())?.as_slice())?;
    refused(
        rt,
        Refused {
            record: &[0, 3, 1, 0, 2],
            fault: AcceptFault::ShortTable,
        },
    )
}

/// A truth within more functions than a rule may have nodes.
fn deep(heap: Global) -> Result<Vec<u8>, AllocError> {
    let mut record = vec![in heap; 2, 3, 1, 0]?;
    record.resize(HEAD + MOST_NODES, 5)?;
    record.push(2)?;
    Ok(record)
}

/// Prints the type of a record, or the message.
fn of_bytes(rt: &HostRuntime, record: &[u8]) -> io::Result<()> {
    match verdict_on(rt.alloc(), record)? {
        Ok(rule) => println!(rt; "rule.rec: {}\n", rule.type_words),
        Err(fault) => refused(rt, fault),
    }
}

fn refused(rt: &HostRuntime, refused: Refused) -> io::Result<()> {
    let file = RecordFile {
        name: "rule.rec",
        form: Form::Bytes,
        cut: false,
    };
    println!(rt; "{}", refused.in_file(rt.alloc(), file)?)
}
