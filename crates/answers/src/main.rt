//! Answers test lines, one for one, so that our answers can be laid beside another author's.
//!
//! In come lines on standard input, each a kind and its fields; out goes one line for each.
//! The work is done by the libraries; here it is only read and written down.
#![tactic(auto)]

mod accept_lines;
mod calls;
mod compile_lines;
mod environments;
mod fields;
mod lines;
mod memory;
mod run_lines;
mod store_lines;
mod trial_lines;
mod trouble;
mod turns;

use std::io;
use std::io::{BufRead, BufReader};

fn main(rt: HostRuntime) -> io::Result<()> {
    let heap = rt.alloc();
    for line in BufReader::new(heap, rt.stdin())?.lines(heap) {
        let line = line?;
        let answer = lines::answer(heap, line.as_str())?;
        println!(rt; "{answer}")?;
    }
    Ok(())
}
