//! Every kind of refusal, shown: `stdout` beside this crate is what people get to read, and the
//! check compares it with what is printed.
#![tactic(auto)]

use book::book::Book;
use messages::names::refused;
use messages::rule_text::{Origin, RuleText};
use std::io;
use syntax::limits::{MOST_NODES, MOST_RECORD, MOST_TEXT};

/// Texts that break at a token.
const TOKENS: [&[u8]; 13] = [
    b"coil - 5",
    b"if coil < 80 then 1 else 0",
    b"coil + \xc3\xa9t\xc3\xa9",
    b"coil + \xff\x01\x1b[2J",
    b"coil + -2147483649",
    b"let n = n + 1 in n",
    b"1 + coli",
    b"coil // in tenths",
    b"coil -- in tenths",
    b"80 \xe2\x89\xa4 coil",
    b"\xef\xbb\xbfcoil",
    b"coil . coil",
    b"(coil, 2)",
];

/// Texts that break the grammar.
const SENTENCES: [&[u8]; 18] = [
    b"",
    b"let a = 1 in\n  1 + fun x -> x\n",
    b"1 <= coil <= 3",
    b"(coil + 1",
    b"coil + 1)",
    b"fun x y -> x",
    b"let x coil",
    b"if coil then 1",
    b"1 +\r\n\r\n",
    b"coil +  \n   \n",
    b"let if = 3 in if",
    b"fun let -> 1",
    b"if (coil <= 3) 1 else 2",
    b"let x = 1\nx",
    b"if coil <= 3 then (1 + 2 else 3",
    b"(let x = 1 in x + 1",
    b"let f = fun x -> x",
    b"1 in 2",
];

/// Lines that are hard to show.
const LINES: [&[u8]; 3] = [
    b"\n\n\n\n\n\n\n\n\n\tcoil\t+ )\r\n1",
    b"coil + coil + coil + coil + coil + coil + coil + coil + cole + coil + coil + coil + coil",
    b"coil a_name_of_many_letters_a_name_of_many_letters_a_name_of_many_letters_a_name_of_many",
];

/// Names, each behind as many others as its place says.
const NAMES: [&str; 6] = ["coil", "coil", "fun", "1st", "fan-speed", ""];

fn main(rt: HostRuntime) -> io::Result<()> {
    for text in TOKENS.iter().chain(&SENTENCES).chain(&LINES) {
        text_refused(&rt, text, MOST_RECORD)?;
    }
    limits(&rt)?;
    for (at, name) in NAMES.iter().enumerate() {
        name_refused(&rt, name, at)?;
    }
    name_refused(&rt, "a_name_that_is_longer_than_32_bytes", 0)?;
    name_refused(&rt, "ninth", 8)
}

/// Texts that are refused as a whole.
fn limits(rt: &HostRuntime) -> io::Result<()> {
    text_refused(rt, &[b' '; MOST_TEXT + 1], MOST_RECORD)?;
    text_refused(rt, &[b'1'; MOST_TEXT], MOST_RECORD)?;
    let sum = format!(in rt.alloc(); "1{}", "+1".repeat(rt.alloc(), MOST_NODES + 1)?)?;
    text_refused(rt, sum.as_bytes(), MOST_RECORD)?;
    text_refused(rt, b"if 80 <= coil then 1 else 0", 23)
}

/// Prints the message for a text, with the one reading coil.
fn text_refused(rt: &HostRuntime, text: &[u8], room: usize) -> io::Result<()> {
    let heap = rt.alloc();
    let mut book = Book::new();
    let _ = book.add(b"coil");
    let names = vec![in heap; "coil"]?;
    let origin = Origin {
        file: "rule.fun",
        names,
        room,
    };
    let rule = RuleText {
        text,
        whole: text,
        book: &book,
        origin: &origin,
    };
    match rule.record(heap, room)? {
        Ok(record) => println!(rt; "{} bytes", record.len()),
        Err(fault) => println!(rt; "{}", rule.refusal(heap, fault)?),
    }
}

/// Prints the message for a name that stands behind `at` others.
fn name_refused(rt: &HostRuntime, name: &str, at: usize) -> io::Result<()> {
    let mut book = Book::new();
    for earlier in ["coil", "b", "c", "d", "e", "f", "g", "h"].iter().take(at) {
        let _ = book.add(earlier.as_bytes());
    }
    match book.add(name.as_bytes()) {
        Ok(()) => println!(rt; "`{name}` is taken\n"),
        Err(fault) => println!(rt; "{}", refused(rt.alloc(), fault, name, at)?),
    }
}
