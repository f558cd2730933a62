//! How large a rule, its text and its record may be, and what a record begins with.
ghost use Rattle.syntax.specs.Limits.{RecordsWithin};

/// How many readings a rule may have.
pub const MOST_READINGS: usize = 8;

/// How many nodes a rule may have.
pub const MOST_NODES: usize = 512;

/// How many bytes a rule's text may have.
pub const MOST_TEXT: usize = 4_096;

/// The version that a record announces.
pub const VERSION: u8 = 1;

/// How many bytes of a record stand before the tree: the count of the rest in two, the version, and the count of
/// readings.
pub const HEAD: usize = 4;

/// As many bytes as a record can have: each node has at most 5.
pub const MOST_RECORD: usize = HEAD + 5 * MOST_NODES;

/// Does nothing: its contract is that no record of a rule of at most `MOST_NODES` nodes is longer than `MOST_RECORD`.
pub fn most_record()
    ensures { RecordsWithin MOST_NODES MOST_RECORD }
{}
