//! Which part of the program answers which line.
use crate::fields::Fields;
use crate::run_lines::After;
use crate::trouble::Trouble;
use crate::{accept_lines, compile_lines, run_lines, store_lines, trial_lines};
use std::alloc::{AllocError, Global};

/// The answer to a line. Blank lines and comments are answered by themselves.
pub(crate) fn answer(heap: Global, line: &str) -> Result<String, AllocError> {
    if line.is_empty() || line.starts_with('#') {
        return String::from_str(heap, line);
    }
    let mut fields = Fields::of(line);
    let answer = match fields.next() {
        "accept" => accept_lines::answer(heap, fields),
        "compile" => compile_lines::answer(heap, fields),
        "lists" => run_lines::answer(heap, fields, After::RoomAndLists),
        "run" => run_lines::answer(heap, fields, After::Room),
        "store" => store_lines::answer(heap, fields),
        "trial" => trial_lines::answer(heap, fields),
        _ => Err(Trouble::Unreadable("no such kind of line")),
    };
    answer.or_else(|trouble| match trouble {
        Trouble::NoMemory(error) => Err(error),
        trouble => trouble.to_string(heap),
    })
}
