//! From a record to an accepted rule.
ghost use Rattle.std.specs.Prelude.{◌≡◌, [], ◌∷◌, ℕ, List};
ghost use Rattle.std.specs.Borrow.{sem};
ghost use denote.RawPtr.{Testable};
ghost use denote.Slice.{Room};
ghost use denote.Builtin.{u8, u16};
ghost use base.Fml.{Share};
ghost use base.Logic.{ex};
ghost use Rattle.firmware.specs.Replies.{AcceptReplied};
ghost use Rattle.firmware_c.specs.Lent.{RuleAt, rule_row, place, shown, slots, any_null, unless, null_reply};

use crate::lent::refused_null;
use firmware::Reply;
use firmware::accepting::accept;
use std::slice::{from_raw_parts, from_raw_parts_mut};
use typing::rule::Rule;

fn accept_in(
    rule: &mut Rule,
    bytes: &[u8],
    first: &mut [u16],
    second: &mut [u16],
    types: &mut [u16],
) -> Reply
    ensures { AcceptReplied bytes.now first.old second.old types.old rule.old first.new second.new types.new rule.new result }
{
    accept(rule, bytes, first, second, types)
}

/// Accepts a record into the rule place.
#[unsafe(no_mangle)]
pub unsafe extern "C" fn fun_accept(
    rule: *mut (),
    bytes: *const u8,
    count: usize,
    first: *mut u16,
    first_count: usize,
    second: *mut u16,
    second_count: usize,
    types: *mut u16,
    types_count: usize,
) -> Reply
    ghost lent: { RuleAt × (Share × List ℕ) × List ℕ × List ℕ × List ℕ }
    requires testable { Testable rule × Testable bytes × Testable first × Testable second × Testable types }
    requires fits { Room u8 count × Room u16 first_count × Room u16 second_count × Room u16 types_count }
    requires* memory { sem 𝓛 (place rule_row lent.0 rule) ∗ sem 𝓛 (shown u8 lent.1.0 count lent.1.1 bytes) ∗ sem 𝓛 (slots u16 first_count lent.2 first) ∗ sem 𝓛 (slots u16 second_count lent.3 second) ∗ sem 𝓛 (slots u16 types_count lent.4 types) }
    ensures* { ex 𝓤 (λ (left : RuleAt × List ℕ × List ℕ × List ℕ). (sem 𝓛 (place rule_row left.0 rule) ∗ sem 𝓛 (shown u8 lent.1.0 count lent.1.1 bytes) ∗ sem 𝓛 (slots u16 first_count left.1 first) ∗ sem 𝓛 (slots u16 second_count left.2 second) ∗ sem 𝓛 (slots u16 types_count left.3 types)) ∗
        ⌜ unless (any_null (rule ∷ bytes ∷ first ∷ second ∷ types ∷ [])) ((left ≡ (lent.0, lent.2, lent.3, lent.4)) × (result ≡ null_reply)) (AcceptReplied lent.1.1 lent.2 lent.3 lent.4 lent.0 left.1 left.2 left.3 left.0 result) ⌝) }
{
    if rule.is_null() | bytes.is_null() | first.is_null() | second.is_null() | types.is_null() {
        return refused_null();
    }
    accept_in(
        &mut *(rule as *mut Rule),
        from_raw_parts(bytes, count),
        from_raw_parts_mut(first, first_count),
        from_raw_parts_mut(second, second_count),
        from_raw_parts_mut(types, types_count),
    )
}
