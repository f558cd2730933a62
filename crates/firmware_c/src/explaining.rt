//! What refusals mean.
ghost use Rattle.std.specs.Prelude.{◌≡◌, [], ◌∷◌, ℕ, List};
ghost use Rattle.std.specs.Borrow.{sem};
ghost use denote.RawPtr.{Testable};
ghost use denote.Slice.{Room};
ghost use denote.Builtin.{u8};
ghost use base.Logic.{ex};
ghost use Rattle.firmware.specs.Replies.{Copied};
ghost use Rattle.firmware_c.specs.Lent.{slots, any_null, unless};

use firmware::explaining::explain;
use std::slice::from_raw_parts_mut;

/// Nothing is written where the pointer is null.
fn nothing_told() -> usize
    ensures { result ≡ 0 }
{
    0
}

fn explain_in(refusal: u32, out: &mut [u8]) -> usize
    ensures { Copied out.old out.new result }
{
    explain(refusal, out)
}

/// Writes what a refusal means, and answers how many bytes that has in all.
#[unsafe(no_mangle)]
pub unsafe extern "C" fn fun_explain(refusal: u32, out: *mut u8, count: usize) -> usize
    ghost lent: { List ℕ }
    requires testable { Testable out }
    requires fits { Room u8 count }
    requires* memory { sem 𝓛 (slots u8 count lent out) }
    ensures* { ex 𝓤 (λ (left : List ℕ). sem 𝓛 (slots u8 count left out) ∗ ⌜ unless (any_null (out ∷ [])) ((left ≡ lent) × (result ≡ 0)) (Copied lent left result) ⌝) }
{
    if out.is_null() {
        return nothing_told();
    }
    explain_in(refusal, from_raw_parts_mut(out, count))
}
