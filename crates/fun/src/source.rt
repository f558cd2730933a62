//! Fetching a file.
use crate::failure::Failure;
use messages::file::{MOST_READ, STANDARD_INPUT, shown_name};
use std::alloc::Global;
use std::fs::File;
use std::io::Read;
use std::{fs, io};

/// What a file should hold, as it is said where the file cannot be read.
pub(crate) const RULE: &str = "the rule's text";

pub(crate) const RECORD: &str = "the record";

/// The bytes of a file, or of standard input where its name is `-`.
pub(crate) fn read(rt: &HostRuntime, file: &str, wanted: &str) -> Result<Vec<u8>, Failure> {
    match bytes(rt, file) {
        Ok(bytes) => Ok(bytes),
        Err(error) => {
            let name = shown_name(file);
            Err(Failure::told(
                rt.alloc(),
                &format_args!(
                    "error: cannot read {name}: {error}\n  = help: give a file with {wanted}, or - for standard input\n"
                ),
            ))
        }
    }
}

fn bytes(rt: &HostRuntime, file: &str) -> io::Result<Vec<u8>> {
    if file == STANDARD_INPUT {
        all_of(rt.alloc(), rt.stdin())
    } else {
        all_of(rt.alloc(), File::open(rt, file)?)
    }
}

/// All bytes that come from somewhere, but no more than are of use.
fn all_of<R: Read + Drop>(heap: Global, source: R) -> io::Result<Vec<u8>> {
    let mut bytes = Vec::new(heap);
    source.take(MOST_READ as u64).read_to_end(&mut bytes)?;
    Ok(bytes)
}

/// Whether two names lead to one file. A name that leads to none yet is another's.
pub(crate) fn is_same(rt: &HostRuntime, one: &str, other: &str) -> bool {
    match (fs::canonicalize(rt, one), fs::canonicalize(rt, other)) {
        (Ok(one), Ok(other)) => one == other,
        _ => false,
    }
}
