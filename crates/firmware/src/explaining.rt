//! What a refusal means, in a line.
ghost use Rattle.std.specs.Prelude.{◌≡◌};
ghost use Rattle.firmware.specs.Replies.{Copied};

/// What a refusal's number means; nothing where there is no such refusal.
// Kept: the limits stand in these texts as people read them, since a constant text cannot be made from numbers.
fn meaning(number: u32) -> &'static [u8] {
    match number {
        1 => b"this is not the length of the record",
        2 => b"this is not the version",
        3 => b"this is no count of readings",
        4 => b"a node is missing",
        5 => b"the rule has too many nodes",
        6 => b"this is no kind of node",
        7 => b"a node is cut short",
        8 => b"a variable stands for no binder and no reading",
        9 => b"bytes stand behind the tree",
        10 => b"a work table is too short",
        11 => b"the types do not go together",
        12 => b"the type does not fit into the buffer",
        20 => b"these are not as many readings as the rule has",
        21 => b"the run does not wait for steps",
        22 => b"so many steps cannot be granted",
        41 => b"a pointer is null",
        42 => b"no run is open in the run place",
        43 => b"a run is open in the run place",
        51 => b"the text is too long",
        52 => b"no token begins here",
        53 => b"the name cannot be a reading's",
        54 => b"the number is out of range",
        55 => b"no sentence goes on with this token",
        57 => b"this name is not in force",
        58 => b"the rule has too many nodes",
        59 => b"the record does not fit",
        _ => b"",
    }
}

/// Writes what a refusal means to the front of `out`, as much of it as there is room for, and answers how many bytes it
/// has in all: 0 where there is no such refusal.
pub fn explain(number: u32, out: &mut [u8]) -> usize
    ensures { Copied out.old out.new result }
{
    let meaning = meaning(number);
    let count = meaning.len().min(out.len());
    out[..count].copy_from_slice(&meaning[..count]);
    meaning.len()
}
