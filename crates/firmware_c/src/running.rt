//! The calls of a run that is open.
ghost use Rattle.std.specs.Prelude.{◌≡◌, [], ◌∷◌, ℤ, List};
ghost use Rattle.std.specs.Borrow.{sem};
ghost use denote.RawPtr.{Testable};
ghost use denote.Slice.{Room};
ghost use denote.Builtin.{i32};
ghost use base.Fml.{Share};
ghost use base.Logic.{ex};
ghost use Rattle.firmware.specs.Places.{told};
ghost use Rattle.firmware_c.specs.Lent.{RunAt, run_row, place, shown, any_null, unless, null_told, null_reply};
ghost use Rattle.firmware_c.specs.Stores.{granted, rewound};

use crate::lent::{RunOverCells, refused_null, told_null};
use firmware::running::{ask, grant, rewind};
use firmware::{Reply, Told};

fn grant_in(run: &mut RunOverCells, steps: u32) -> Reply
    ensures { granted run.old steps run.new result }
{
    grant(run, steps)
}

fn rewind_in(run: &mut RunOverCells, readings: &[i32]) -> Reply
    ensures { rewound run.old readings.now run.new result }
{
    rewind(run, readings)
}

fn ask_in(run: &mut RunOverCells) -> Told
    ensures { (run.new ≡ run.old) × (result ≡ told run.old) }
{
    ask(run)
}

/// Grants steps to the run that is open in the run place.
#[unsafe(no_mangle)]
pub unsafe extern "C" fn fun_grant(run: *mut (), steps: u32) -> Reply
    ghost lent: { RunAt }
    requires testable { Testable run }
    requires* memory { sem 𝓛 (place run_row lent run) }
    ensures* { ex 𝓤 (λ (left : RunAt). sem 𝓛 (place run_row left run) ∗ ⌜ unless (any_null (run ∷ [])) ((left ≡ lent) × (result ≡ null_reply)) (granted lent steps left result) ⌝) }
{
    if run.is_null() {
        return refused_null();
    }
    grant_in(&mut *(run as *mut RunOverCells), steps)
}

/// What the run place tells: the count and the state of its run, or that none is open.
#[unsafe(no_mangle)]
pub unsafe extern "C" fn fun_ask(run: *mut ()) -> Told
    ghost lent: { RunAt }
    requires testable { Testable run }
    requires* memory { sem 𝓛 (place run_row lent run) }
    ensures* { ex 𝓤 (λ (left : RunAt). sem 𝓛 (place run_row left run) ∗ ⌜ unless (any_null (run ∷ [])) ((left ≡ lent) × (result ≡ null_told)) ((left ≡ lent) × (result ≡ told lent)) ⌝) }
{
    if run.is_null() {
        return told_null();
    }
    ask_in(&mut *(run as *mut RunOverCells))
}

/// Begins the run of the run place anew, with these readings.
#[unsafe(no_mangle)]
pub unsafe extern "C" fn fun_rewind(run: *mut (), readings: *const i32, count: usize) -> Reply
    ghost lent: { RunAt × (Share × List ℤ) }
    requires testable { Testable run × Testable readings }
    requires fits { Room i32 count }
    requires* memory { sem 𝓛 (place run_row lent.0 run) ∗ sem 𝓛 (shown i32 lent.1.0 count lent.1.1 readings) }
    ensures* { ex 𝓤 (λ (left : RunAt). (sem 𝓛 (place run_row left run) ∗ sem 𝓛 (shown i32 lent.1.0 count lent.1.1 readings)) ∗ ⌜ unless (any_null (run ∷ readings ∷ [])) ((left ≡ lent.0) × (result ≡ null_reply)) (rewound lent.0 lent.1.1 left result) ⌝) }
{
    if run.is_null() | readings.is_null() {
        return refused_null();
    }
    rewind_in(
        &mut *(run as *mut RunOverCells),
        std::slice::from_raw_parts(readings, count),
    )
}
