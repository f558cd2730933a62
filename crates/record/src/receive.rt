//! A whole record.
ghost use Rattle.record.specs.Reading.{Judged, Fronted};

use crate::fault::RecordFault;
use crate::reader::Reader;
use crate::received::Received;
use syntax::limits::{HEAD, MOST_READINGS, VERSION};

/// The count of readings, of a record whose first four bytes are in order.
fn front(bytes: &[u8]) -> Result<usize, RecordFault>
    ensures { Fronted bytes.now result }
{
    let [high, low, rest @ ..] = bytes else {
        return Err(RecordFault::Length);
    };
    if usize::from(u16::from_be_bytes([*high, *low])) != rest.len() {
        return Err(RecordFault::Length);
    }
    if bytes.get(2) != Some(&VERSION) {
        return Err(RecordFault::Version);
    }
    bytes
        .get(3)
        .map(|readings| usize::from(*readings))
        .filter(|readings| *readings <= MOST_READINGS)
        .ok_or(RecordFault::Readings)
}

/// The tree whose record these bytes are.
pub fn receive(bytes: &[u8]) -> Result<Received, RecordFault>
    ensures { Judged bytes.now result }
{
    let readings = front(bytes)?;
    let mut reader = Reader::new(bytes, HEAD);
    reader.tree(0, readings)?;
    let Reader {
        bytes,
        place: end,
        nodes,
    } = reader;
    if end < bytes.len() {
        return Err(RecordFault::Spare(end));
    }
    Ok(Received { nodes, readings })
}
