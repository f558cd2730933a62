//! A trial: from a text to a report in one call.
ghost use Rattle.std.specs.Prelude.{◌≡◌, [], ◌∷◌, ℕ, ℤ, List};
ghost use Rattle.std.specs.Borrow.{sem};
ghost use Rattle.book.specs.Books.{names};
ghost use denote.RawPtr.{Testable};
ghost use denote.Slice.{Room};
ghost use denote.Builtin.{u8, u16, i32};
ghost use base.Fml.{Share};
ghost use base.Logic.{ex};
ghost use Rattle.firmware.specs.Trials.{buffers};
ghost use Rattle.firmware_c.specs.Lent.{RunAt, RuleAt, BookAt, run_row, rule_row, book_row, place, shown, slots, any_null, unless, null_trial};
ghost use Rattle.firmware_c.specs.Stores.{tries};

use crate::lent::{RunOverCells, refused_null};
use crate::starting::over;
use book::book::Book;
use firmware::Trial;
use firmware::trying::{TriedPlaces, try_text};
use std::mem;
use std::slice::{from_raw_parts, from_raw_parts_mut};
use typing::rule::Rule;

/// The reply where a pointer is null.
fn no_trial() -> Trial
    ensures { result ≡ null_trial }
{
    Trial::refused(refused_null())
}

fn try_in(
    run: &mut RunOverCells,
    rule: &mut Rule,
    book: &mut Book,
    text: &[u8],
    out: &mut [u8],
    first: &mut [u16],
    second: &mut [u16],
    types: &mut [u16],
    readings: &[i32],
    steps: u32,
) -> Trial
    ensures { (book.new ≡ book.old) × tries text.now (names book.old) (buffers out.old first.old second.old types.old) (buffers out.new first.new second.new types.new) run.old rule.old readings.now steps run.new rule.new result }
{
    let TriedPlaces {
        run: next,
        rule: left,
        trial,
    } = try_text(
        text,
        book,
        out,
        first,
        second,
        types,
        mem::replace(run, over(&mut [])),
        mem::replace(rule, Rule::new()),
        readings,
        steps,
    );
    *rule = left;
    mem::replace(run, next).let_go();
    trial
}

/// Tries a text over the cells of the run place.
#[unsafe(no_mangle)]
pub unsafe extern "C" fn fun_trial(
    run: *mut (),
    rule: *mut (),
    book: *mut (),
    text: *const u8,
    text_count: usize,
    out: *mut u8,
    out_count: usize,
    first: *mut u16,
    first_count: usize,
    second: *mut u16,
    second_count: usize,
    types: *mut u16,
    types_count: usize,
    readings: *const i32,
    count: usize,
    steps: u32,
) -> Trial
    ghost lent: { RunAt × RuleAt × BookAt × (Share × List ℕ) × List ℕ × List ℕ × List ℕ × List ℕ × (Share × List ℤ) }
    requires testable { Testable run × Testable rule × Testable book × Testable text × Testable out × Testable first × Testable second × Testable types × Testable readings }
    requires fits { Room u8 text_count × Room u8 out_count × Room u16 first_count × Room u16 second_count × Room u16 types_count × Room i32 count }
    requires* memory { sem 𝓛 (place run_row lent.0 run) ∗ sem 𝓛 (place rule_row lent.1 rule) ∗ sem 𝓛 (place book_row lent.2 book) ∗ sem 𝓛 (shown u8 lent.3.0 text_count lent.3.1 text) ∗
        sem 𝓛 (slots u8 out_count lent.4 out) ∗ sem 𝓛 (slots u16 first_count lent.5 first) ∗ sem 𝓛 (slots u16 second_count lent.6 second) ∗ sem 𝓛 (slots u16 types_count lent.7 types) ∗ sem 𝓛 (shown i32 lent.8.0 count lent.8.1 readings) }
    ensures* { ex 𝓤 (λ (left : RunAt × RuleAt × BookAt × List ℕ × List ℕ × List ℕ × List ℕ). (sem 𝓛 (place run_row left.0 run) ∗ sem 𝓛 (place rule_row left.1 rule) ∗ sem 𝓛 (place book_row left.2 book) ∗ sem 𝓛 (shown u8 lent.3.0 text_count lent.3.1 text) ∗
        sem 𝓛 (slots u8 out_count left.3 out) ∗ sem 𝓛 (slots u16 first_count left.4 first) ∗ sem 𝓛 (slots u16 second_count left.5 second) ∗ sem 𝓛 (slots u16 types_count left.6 types) ∗ sem 𝓛 (shown i32 lent.8.0 count lent.8.1 readings)) ∗
        ⌜ unless (any_null (run ∷ rule ∷ book ∷ text ∷ out ∷ first ∷ second ∷ types ∷ readings ∷ []))
        ((left ≡ (lent.0, lent.1, lent.2, lent.4, lent.5, lent.6, lent.7)) × (result ≡ null_trial))
        ((left.2 ≡ lent.2) × tries lent.3.1 (names lent.2) (buffers lent.4 lent.5 lent.6 lent.7) (buffers left.3 left.4 left.5 left.6) lent.0 lent.1 lent.8.1 steps left.0 left.1 result) ⌝) }
{
    if run.is_null()
        | rule.is_null()
        | book.is_null()
        | text.is_null()
        | out.is_null()
        | first.is_null()
        | second.is_null()
        | types.is_null()
        | readings.is_null()
    {
        return no_trial();
    }
    try_in(
        &mut *(run as *mut RunOverCells),
        &mut *(rule as *mut Rule),
        &mut *(book as *mut Book),
        from_raw_parts(text, text_count),
        from_raw_parts_mut(out, out_count),
        from_raw_parts_mut(first, first_count),
        from_raw_parts_mut(second, second_count),
        from_raw_parts_mut(types, types_count),
        from_raw_parts(readings, count),
        steps,
    )
}
