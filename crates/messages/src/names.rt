//! Names that cannot name a reading.
ghost use Rattle.std.specs.Prelude.{◌≡◌, IfOk};

use crate::frame::Message;
use crate::quote::Quoted;
use crate::reason::Reason;
use book::fault::NameFault;
use book::name::MOST_BYTES;
use lexer::scan::next_part;
use std::alloc::{AllocError, Global};
use syntax::limits::MOST_READINGS;

/// The message for a refused name, by its order among the names, from 0.
pub fn refused(
    heap: Global,
    fault: NameFault,
    name: &str,
    at: usize,
) -> Result<Message<'static>, AllocError>
    ensures { IfOk result (λ message. message.number ≡ 53) }
{
    let order = at.saturating_add(1);
    let reason = reason_of(heap, fault, name.as_bytes())?;
    let name = Quoted(name.as_bytes());
    let subject = format!(in heap; "the name of reading {order}: {name}")?;
    Ok(Message::about(fault.number(), subject.into(), reason))
}

/// Why a name is refused, and what to do.
fn reason_of(heap: Global, fault: NameFault, name: &[u8]) -> Result<Reason, AllocError> {
    match fault {
        NameFault::Full => {
            let why = format!(in heap; "a rule has at most {MOST_READINGS} readings")?;
            let help = format!(in heap; "name at most {MOST_READINGS} readings")?;
            Ok(Reason::new("there are too many names", why, help))
        }
        NameFault::TooLong => {
            let length = name.len();
            let why = format!(in heap;
                "it has {length} bytes, and a reading's name at most {MOST_BYTES}"
            )?;
            Ok(Reason::new("the name is too long", why, "choose a shorter name"))
        }
        NameFault::Taken => Ok(Reason::new(
            "the name is there already",
            "an earlier reading has the same name",
            "give each reading a name of its own",
        )),
        NameFault::NoName => Ok(Reason::new(
            "this is not a name",
            no_name(name),
            "write a letter, then letters, digits and underscores",
        )),
    }
}

/// Why these bytes are no name. A word that is none is a keyword.
fn no_name(name: &[u8]) -> &'static str {
    match name.first() {
        None => "it is empty",
        Some(first) if !first.is_ascii_alphabetic() => {
            "it does not begin with a letter from A to Z or a to z"
        }
        Some(_) if is_token(name) => "it is one of the eight keywords",
        Some(_) => "it has a byte that is no letter, digit or underscore",
    }
}

/// Whether these bytes are one token.
fn is_token(bytes: &[u8]) -> bool {
    next_part(bytes, 0).is_ok_and(|token| token.stop == bytes.len())
}
