//! How a name is spelled, and telling names apart.
ghost use Rattle.std.specs.Prelude.{◌≡◌, Some};
ghost use Rattle.grammar.specs.Names.{same};
ghost use Rattle.text.specs.Spellings.{bytes_of, hash_of};

use book::name::same_bytes;

/// A name, and a number that tells it from most other names at a glance.
// A blank one is all zero, and a table of blank ones is made as one piece of zeros. With the name alone as a slice, or with
// a smaller hash, each place of a table was written apart.
#[derive(Clone, Copy)]
pub(crate) struct Spelling<'a> {
    hash: usize,
    name: Option<&'a [u8]>,
    ghost hashed: { hash ≡ hash_of (bytes_of name) },
}

impl Default for Spelling<'_> {
    fn default() -> Self {
        Spelling {
            hash: 0,
            name: None,
        }
    }
}

/// The number that a name's bytes are as digits to base 257, without its high bits.
// The base is above every byte, so that no two names of up to 7 bytes have the same number.
fn hash(name: &[u8]) -> usize
    ensures { result ≡ hash_of name.now }
{
    name.iter().fold(0, |hash: usize, byte| {
        257 * (hash % (1 << 55)) + usize::from(*byte)
    })
}

impl<'a> Spelling<'a> {
    pub(crate) fn of(name: &'a [u8]) -> Spelling<'a>
        ensures { result.name ≡ Some name.entry }
    {
        Spelling {
            hash: hash(name),
            name: Some(name),
        }
    }

    /// Whether both are the same name.
    pub(crate) fn is(&self, other: &Spelling) -> bool
        ensures { result ≡ same (bytes_of self.now.name) (bytes_of other.now.name) }
    {
        self.hash == other.hash && same_bytes(self.name.unwrap_or(&[]), other.name.unwrap_or(&[]))
    }
}
