//! Why bytes are no record: what stands at the place, and what was expected there.
use crate::standing::standing_behind;
use crate::walk::Walk;
use messages::reason::Reason;
use record::fault::RecordFault;
use std::alloc::{AllocError, Global};
use std::borrow::CowStr;
use syntax::kind::Kind;
use syntax::limits::{MOST_NODES, MOST_READINGS, VERSION};

/// What to do about bytes that were damaged on their way.
const ANEW: &str = "make the record anew from its text: fun compile FILE NAME..";

/// Bytes that were given for a record.
#[derive(Clone, Copy)]
pub(crate) struct Given<'a> {
    pub(crate) bytes: &'a [u8],
    /// Whether there are more than were read.
    pub(crate) cut: bool,
}

impl Given<'_> {
    /// The reason for a refusal.
    pub(crate) fn reason(&self, heap: Global, fault: RecordFault) -> Result<Reason, AllocError> {
        match fault {
            RecordFault::Length => self.length(heap),
            RecordFault::Version => self.version(heap),
            RecordFault::Readings => self.readings(heap),
            RecordFault::NoNode(place) => self.no_node(heap, place),
            RecordFault::TooManyNodes(place) => too_many_nodes(heap, place),
            RecordFault::UnknownKind(place) => self.unknown_kind(heap, place),
            RecordFault::CutShort(_) => self.cut_short(heap),
            RecordFault::Unbound(place) => self.unbound(heap, place),
            RecordFault::Spare(place) => self.spare(heap, place),
        }
    }

    fn length(&self, heap: Global) -> Result<Reason, AllocError> {
        let why = match self.bytes {
            [high, low, others @ ..] => {
                let said = u16::from_be_bytes([*high, *low]);
                let follow = others.len();
                let more = if self.cut { " or more" } else { "" };
                format!(in heap;
                    "the first two bytes, {high:02x} {low:02x}, announce {said}, and {follow}{more} follow"
                )?
            }
            few => format!(in heap;
                "a record begins with 2 bytes that count the others, and it has {}",
                few.len()
            )?,
        };
        let help =
            "give one whole record and nothing else, as bytes or as hexadecimal digits in pairs";
        Ok(Reason::new("this is not the length of the record", why, help))
    }

    fn version(&self, heap: Global) -> Result<Reason, AllocError> {
        let why = match self.bytes.get(2) {
            Some(byte) => CowStr::from(format!(in heap;
                "byte 2 is {byte:02x}, and the version is {VERSION:02x}"
            )?),
            None => CowStr::from("the record ends before byte 2, the version"),
        };
        Ok(Reason::new("this is not the version", why, ANEW))
    }

    fn readings(&self, heap: Global) -> Result<Reason, AllocError> {
        let why = match self.bytes.get(3) {
            Some(byte) => CowStr::from(format!(in heap;
                "byte 3 is {byte:02x}, and a rule has at most {MOST_READINGS} readings"
            )?),
            None => CowStr::from("the record ends before byte 3, the count of readings"),
        };
        Ok(Reason::new("this is no count of readings", why, ANEW))
    }

    fn no_node(&self, heap: Global, place: usize) -> Result<Reason, AllocError> {
        let node = Walk::over(self.bytes).count();
        let why = format!(in heap;
            "the record ends before byte {place}, where node {node} of the tree is to begin"
        )?;
        Ok(Reason::new("a node is missing", why, ANEW))
    }

    fn unknown_kind(&self, heap: Global, place: usize) -> Result<Reason, AllocError> {
        let why = match self.bytes.get(place) {
            Some(byte) => format!(in heap;
                "byte {place} is {byte:02x}, and the kinds are 01 to 0a"
            )?,
            None => format!(in heap; "the record ends before byte {place}")?,
        };
        Ok(Reason::new("this is no kind of node", why, ANEW))
    }

    /// The node that is cut short is the last one that begins.
    fn cut_short(&self, heap: Global) -> Result<Reason, AllocError> {
        let Some((place, kind)) = Walk::over(self.bytes).last() else {
            let why = "the record ends before its first node";
            return Ok(Reason::new("a node is cut short", why, ANEW));
        };
        let what = match kind {
            Kind::Number => "number",
            _ => "variable",
        };
        let wanted = kind.operands();
        let there = self.bytes.len().saturating_sub(place).saturating_sub(1);
        let why = format!(in heap;
            "the {what} at byte {place} wants {wanted} bytes behind its kind, and it has {there}"
        )?;
        Ok(Reason::new("a node is cut short", why, ANEW))
    }

    fn unbound(&self, heap: Global, place: usize) -> Result<Reason, AllocError> {
        let why = match self.bytes.get(place..) {
            Some([_, high, low, ..]) => {
                let distance = u16::from_be_bytes([*high, *low]);
                let around = self.around(heap, place)?;
                CowStr::from(format!(in heap;
                    "the variable at byte {place} has distance {distance}; binders and readings around it: {around}"
                )?)
            }
            _ => CowStr::from("the record ends before its distance"),
        };
        Ok(Reason::new("a variable stands for nothing", why, ANEW))
    }

    /// How many binders and readings are around the node that begins at a place.
    fn around(&self, heap: Global, place: usize) -> Result<usize, AllocError> {
        let readings = self.bytes.get(3).copied().map_or(0, usize::from);
        let kinds: Vec<Kind> = Walk::over(self.bytes)
            .take_while(|(at, _)| *at < place)
            .map(|(_, kind)| kind)
            .collect(heap)?;
        let standing = standing_behind(heap, kinds.as_slice(), readings)?;
        Ok(standing.map_or(0, |standing| standing.around))
    }

    fn spare(&self, heap: Global, place: usize) -> Result<Reason, AllocError> {
        let spare = self.bytes.len().saturating_sub(place);
        let why = format!(in heap;
            "the tree ends before byte {place}; bytes from there on: {spare}"
        )?;
        Ok(Reason::new("the record goes on behind its tree", why, ANEW))
    }
}

fn too_many_nodes(heap: Global, place: usize) -> Result<Reason, AllocError> {
    let why = format!(in heap;
        "the node at byte {place} is the {}th, and a rule has at most {MOST_NODES}",
        MOST_NODES + 1
    )?;
    Ok(Reason::new("the rule has too many nodes", why, "make two rules of it"))
}
