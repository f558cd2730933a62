//! A names book, and from a text to its record.
ghost use Rattle.std.specs.Prelude.{◌≡◌, [], ◌∷◌, ℕ, List, Option};
ghost use Rattle.std.specs.Borrow.{sem};
ghost use Rattle.book.specs.Books.{names};
ghost use denote.RawPtr.{Testable};
ghost use denote.Slice.{Room};
ghost use denote.Builtin.{u8};
ghost use base.Fml.{Share};
ghost use base.Logic.{ex};
ghost use Rattle.firmware.specs.Replies.{NameReplied, CompileReplied};
ghost use Rattle.firmware_c.specs.Lent.{BookAt, book_row, place, vacant, made, IsMade, IsNotMade, shown, slots, any_null, unless, done_reply, null_reply};

use crate::lent::{done, refused_null};
use book::book::Book;
use firmware::Reply;
use firmware::compiling::{add, compile};
use std::slice::{from_raw_parts, from_raw_parts_mut};

fn add_in(book: &mut Book, name: &[u8]) -> Reply
    ensures { NameReplied (names book.old) (names book.new) name.now result }
{
    add(book, name)
}

fn compile_in(book: &mut Book, text: &[u8], out: &mut [u8]) -> Reply
    ensures { (book.new ≡ book.old) × CompileReplied text.now (names book.old) out.old out.new result }
{
    compile(text, book, out)
}

/// Puts an empty names book into the place, whatever stands there.
#[unsafe(no_mangle)]
pub unsafe extern "C" fn fun_book_new(book: *mut ()) -> Reply
    requires testable { Testable book }
    requires* memory { sem 𝓛 (vacant book_row book) }
    ensures* { ex 𝓤 (λ (left : Option BookAt). sem 𝓛 (made book_row left book) ∗ ⌜ unless (any_null (book ∷ [])) (IsNotMade left × (result ≡ null_reply)) (IsMade left (λ new. names new ≡ []) × (result ≡ done_reply)) ⌝) }
{
    if book.is_null() {
        return refused_null();
    }
    let book = book as *mut Book;
    book.write(Book::new());
    done()
}

/// Adds the name of the next reading to the book.
#[unsafe(no_mangle)]
pub unsafe extern "C" fn fun_book_add(book: *mut (), name: *const u8, count: usize) -> Reply
    ghost lent: { BookAt × (Share × List ℕ) }
    requires testable { Testable book × Testable name }
    requires fits { Room u8 count }
    requires* memory { sem 𝓛 (place book_row lent.0 book) ∗ sem 𝓛 (shown u8 lent.1.0 count lent.1.1 name) }
    ensures* { ex 𝓤 (λ (left : BookAt). (sem 𝓛 (place book_row left book) ∗ sem 𝓛 (shown u8 lent.1.0 count lent.1.1 name)) ∗ ⌜ unless (any_null (book ∷ name ∷ [])) ((left ≡ lent.0) × (result ≡ null_reply)) (NameReplied (names lent.0) (names left) lent.1.1 result) ⌝) }
{
    if book.is_null() | name.is_null() {
        return refused_null();
    }
    add_in(&mut *(book as *mut Book), from_raw_parts(name, count))
}

/// Compiles a text to its record.
#[unsafe(no_mangle)]
pub unsafe extern "C" fn fun_compile(
    book: *mut (),
    text: *const u8,
    count: usize,
    out: *mut u8,
    out_count: usize,
) -> Reply
    ghost lent: { BookAt × (Share × List ℕ) × List ℕ }
    requires testable { Testable book × Testable text × Testable out }
    requires fits { Room u8 count × Room u8 out_count }
    requires* memory { sem 𝓛 (place book_row lent.0 book) ∗ sem 𝓛 (shown u8 lent.1.0 count lent.1.1 text) ∗ sem 𝓛 (slots u8 out_count lent.2 out) }
    ensures* { ex 𝓤 (λ (left : BookAt × List ℕ). (sem 𝓛 (place book_row left.0 book) ∗ sem 𝓛 (shown u8 lent.1.0 count lent.1.1 text) ∗ sem 𝓛 (slots u8 out_count left.1 out)) ∗
        ⌜ unless (any_null (book ∷ text ∷ out ∷ [])) ((left ≡ (lent.0, lent.2)) × (result ≡ null_reply)) ((left.0 ≡ lent.0) × CompileReplied lent.1.1 (names lent.0) lent.2 left.1 result) ⌝) }
{
    if book.is_null() | text.is_null() | out.is_null() {
        return refused_null();
    }
    compile_in(
        &mut *(book as *mut Book),
        from_raw_parts(text, count),
        from_raw_parts_mut(out, out_count),
    )
}
