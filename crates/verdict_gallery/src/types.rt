//! Types in words, and texts whose types do not go together.
use book::book::Book;
use messages::file::TextFile;
use std::io;
use syntax::limits::MOST_RECORD;
use text::compile::compile;
use verdicts::verdict::verdict_on;

/// Rules that have a type.
const TYPED: [&[u8]; 5] = [
    b"if 80 <= coil then 1 else 0",
    b"fun x -> x <= coil",
    b"fun x -> fun y -> y",
    b"fun f -> fun x -> f (f x)",
    b"fun f -> f (fun x -> if x then coil else 0)",
];

/// Each kind of node where another type is asked for.
const KINDS: [&[u8]; 10] = [
    b"coil + true",
    b"if coil then 1 else 0",
    b"if coil + 1 then 1 else 0",
    b"1 + (coil <= 2)",
    b"1 <= (fun x -> x)",
    b"coil -1",
    b"(coil + 1) 2",
    b"if true then 1 else false",
    b"(fun x -> x + 1) true",
    b"(fun f -> 1 + f 2) (fun x -> true)",
];

/// Names with one type and a use of another.
const NAMES: [&[u8]; 5] = [
    b"fun x -> if x then x + 1 else 0",
    b"fun f -> f f",
    b"fun f -> if f 1 then f 1 + 1 else 0",
    b"(fun f -> 1 + f true) (fun x -> x)",
    b"let t = true in let n = 1 in if t then n else t",
];

/// Parts that are hard to show.
const LAYOUT: [&[u8]; 3] = [
    b"1 + ((2) + ((fun x -> (x)) ) )",
    b"(1 + ((2) <= (3) + (4)) ) + 5",
    b"let a = 1 in\r\n\ta + (fun x -> \r\n\tx +\r\n\ta)\r\n",
];

/// Prints each text's type or message; among them are a type of many unknowns and one that is too long.
pub(crate) fn show_all(rt: &HostRuntime) -> io::Result<()> {
    let heap = rt.alloc();
    for text in &TYPED {
        of_text(rt, text)?;
    }
    let many = format!(in heap; "{}x", "fun x -> ".repeat(heap, 28)?)?;
    of_text(rt, many.as_bytes())?;
    for text in KINDS.iter().chain(&NAMES).chain(&LAYOUT) {
        of_text(rt, text)?;
    }
    let doubled = "let a = fun k -> k a a in\n".repeat(heap, 17)?;
    let long = format!(in heap; "fun a -> {doubled}a")?;
    of_text(rt, long.as_bytes())
}

/// Prints the type of a text, with the one reading coil, or the message.
fn of_text(rt: &HostRuntime, text: &[u8]) -> io::Result<()> {
    let heap = rt.alloc();
    let mut book = Book::new();
    let _ = book.add(b"coil");
    let mut record = vec![in heap; 0u8; MOST_RECORD]?;
    let Ok(count) = compile(text, &book, &mut record) else {
        return println!(rt; "this text is no rule\n");
    };
    match verdict_on(heap, &record[..count])? {
        Ok(rule) => println!(rt; "rule.fun: {}\n", rule.type_words),
        Err(refused) => {
            let file = TextFile {
                name: "rule.fun",
                whole: text,
                text,
            };
            println!(rt; "{}", refused.in_text(heap, file)?)
        }
    }
}
