//! Every kind of refusal of a record or a type, shown: `stdout` beside this crate is what people get to read, and the
//! check compares it with what is printed.
#![tactic(auto)]

mod records;
mod types;

use std::io;

fn main(rt: HostRuntime) -> io::Result<()> {
    types::show_all(&rt)?;
    records::show_all(&rt)
}
