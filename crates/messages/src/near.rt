//! Names that were perhaps meant.
use std::alloc::{AllocError, Global};
use strsim::generic_damerau_levenshtein;

/// How many edits away a name may be.
const MOST_EDITS: usize = 2;

/// The name that is nearest to a word, where one is near: fewer edits away than it has letters.
pub fn nearest<'n>(
    heap: Global,
    word: &[u8],
    names: &[&'n str],
) -> Result<Option<&'n str>, AllocError> {
    let mut nearest = None;
    let mut fewest = MOST_EDITS + 1;
    for name in names {
        let edits = generic_damerau_levenshtein(heap, word, name.as_bytes())?;
        if edits < fewest && edits < name.len() {
            fewest = edits;
            nearest = Some(*name);
        }
    }
    Ok(nearest)
}
