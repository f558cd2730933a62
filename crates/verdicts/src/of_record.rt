//! Records that are not accepted.
ghost use Rattle.std.specs.Prelude.{◌≡◌, IfOk};
ghost use Rattle.typing.specs.Faults.{number_of};

use crate::clash::clash_at;
use crate::node_at::NodeAt;
use crate::questions::Given;
use crate::verdict::{MOST_ENTRIES, Refused, TABLE};
use crate::walk::Walk;
use messages::frame::Message;
use messages::reason::Reason;
use record::receive::receive;
use std::alloc::{AllocError, Global};
use std::fmt;
use syntax::kind::Kind;
use typing::fault::AcceptFault;

/// How a file spells a record.
#[derive(Clone, Copy)]
pub enum Form {
    Bytes,
    Hexadecimal,
}

impl fmt::Display for Form {
    fn fmt<W: fmt::Write>(&self, f: &mut fmt::Formatter<W>) -> fmt::Result {
        match self {
            Form::Bytes => write!(f, "bytes"),
            Form::Hexadecimal => write!(f, "hexadecimal"),
        }
    }
}

/// The file that a record came in.
#[derive(Clone, Copy)]
pub struct RecordFile<'a> {
    pub name: &'a str,
    pub form: Form,
    /// Whether it has more than was read of it.
    pub cut: bool,
}

impl fmt::Display for RecordFile<'_> {
    fn fmt<W: fmt::Write>(&self, f: &mut fmt::Formatter<W>) -> fmt::Result {
        write!(f, "{}, read as {}", self.name, self.form)
    }
}

impl Refused<'_> {
    /// The message for the file that the record came in.
    pub fn in_file(&self, heap: Global, file: RecordFile) -> Result<Message<'static>, AllocError>
        ensures { IfOk result (λ message. message.number ≡ number_of self.now.fault) }
    {
        let mut reason = self.reason(heap, file.cut)?;
        if let AcceptFault::NoType(_) = self.fault {
            reason.help =
                "check the rule's text, which shows the part: fun check FILE NAME..".into();
        }
        let subject = self.subject(heap, file)?;
        Ok(Message::about(self.fault.number(), subject.into(), reason))
    }

    /// The file, and where in the record the refusal points: at a byte, at a node or nowhere.
    fn subject(&self, heap: Global, file: RecordFile) -> Result<String, AllocError> {
        match self.fault {
            AcceptFault::Record(fault) => format!(in heap; "{file}: byte {}", fault.place()),
            AcceptFault::NoType(node) => match Walk::over(self.record).nth(node) {
                Some((place, kind)) => format!(in heap;
                    "{file}: node {node} at byte {place}, {}",
                    named(kind)
                ),
                None => format!(in heap; "{file}: node {node}"),
            },
            AcceptFault::ShortTable | AcceptFault::LongType => format!(in heap; "{file}"),
        }
    }

    /// The reason for the refusal, for a text. Where `cut` is said, there are more bytes than were read.
    pub(crate) fn reason(&self, heap: Global, cut: bool) -> Result<Reason, AllocError> {
        let given = Given {
            bytes: self.record,
            cut,
        };
        match self.fault {
            AcceptFault::Record(fault) => given.reason(heap, fault),
            AcceptFault::NoType(node) => match receive(self.record) {
                Ok(received) => {
                    let nodes = received.nodes.as_slice();
                    clash_at(heap, NodeAt { nodes, at: node })
                }
                Err(fault) => given.reason(heap, fault),
            },
            AcceptFault::ShortTable => {
                let help = format!(in heap;
                    "lend longer tables: {TABLE} entries are enough for every rule"
                )?;
                let why = "a rule of n nodes needs two tables of 3 n + 2 entries";
                Ok(Reason::new("a work table is too short", why, help))
            }
            AcceptFault::LongType => {
                let why = format!(in heap;
                    "there is room for {MOST_ENTRIES} ints, bools, unknowns and arrows, and it has more"
                )?;
                let title = "the rule has a type, but too long a one to write down";
                let help =
                    "shorten the rule: each name that uses an earlier one twice can double the type";
                Ok(Reason::new(title, why, help))
            }
        }
    }
}

/// What a node of a kind is called.
// The kinds belong to a crate that has no words, and only the crate of a type may print it.
fn named(kind: Kind) -> &'static str {
    match kind {
        Kind::Number => "a number",
        Kind::False | Kind::True => "a truth",
        Kind::Variable => "a variable",
        Kind::Function => "a function",
        Kind::Application => "an application",
        Kind::LetIn => "a let",
        Kind::Sum => "a sum",
        Kind::AtMost => "a comparison",
        Kind::IfElse => "an if",
    }
}
