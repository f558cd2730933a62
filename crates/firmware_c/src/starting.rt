//! Places that begin, and what goes from one to the other.
ghost use Rattle.std.specs.Prelude.{◌≡◌, [], ◌∷◌, List, length, pos, Option};
ghost use Rattle.std.specs.Borrow.{sem};
ghost use Rattle.syntax.specs.Tree.{number};
ghost use Rattle.typing.specs.Accepting.{IsRule};
ghost use denote.RawPtr.{Testable};
ghost use denote.Slice.{Room};
ghost use base.Logic.{ex};
ghost use Rattle.firmware.specs.Places.{Closing, freed};
ghost use Rattle.firmware_c.specs.Lent.{RuleAt, RunAt, CellAt, rule_row, run_row, cell_row, place, vacant, made, comes_back, IsMade, IsNotMade, slots, any_null, unless, done_reply, null_reply};
ghost use Rattle.firmware_c.specs.Stores.{started, fresh_over, room};

use crate::lent::{RunOverCells, done, refused_null};
use firmware::running::{Places, close, free, start};
use firmware::{Reply, RunPlace};
use linked::cell::Cell;
use linked::linked::LinkedStore;
use std::mem;
use typing::rule::Rule;
use values::Value;

/// A run place over these cells, in which no run is open.
pub(crate) fn over(cells: &'static mut [Cell<Value>]) -> RunOverCells
    ensures { fresh_over (length cells.old) result }
{
    RunPlace::Closed(LinkedStore::new(cells))
}

fn start_in(run: &mut RunOverCells, rule: &mut Rule) -> Reply
    ensures { started run.old rule.old run.new rule.new result }
{
    let Places {
        run: next,
        rule: left,
        reply,
    } = start(
        mem::replace(run, over(&mut [])),
        mem::replace(rule, Rule::new()),
    );
    *rule = left;
    mem::replace(run, next).let_go();
    reply
}

fn close_in(run: &mut RunOverCells, rule: &mut Rule) -> Reply
    ensures { Closing run.old rule.old run.new rule.new result }
{
    let Places {
        run: next,
        rule: left,
        reply,
    } = close(
        mem::replace(run, over(&mut [])),
        mem::replace(rule, Rule::new()),
    );
    *rule = left;
    mem::replace(run, next).let_go();
    reply
}

fn free_in(run: &mut RunOverCells) -> Reply
    ensures { (run.new ≡ run.old) × (result ≡ freed room run.old) }
{
    free(run)
}

/// Starts the rule of the rule place in the run place.
#[unsafe(no_mangle)]
pub unsafe extern "C" fn fun_start(run: *mut (), rule: *mut ()) -> Reply
    ghost lent: { RunAt × RuleAt }
    requires testable { Testable run × Testable rule }
    requires* memory { sem 𝓛 (place run_row lent.0 run) ∗ sem 𝓛 (place rule_row lent.1 rule) }
    ensures* { ex 𝓤 (λ (left : RunAt × RuleAt). (sem 𝓛 (place run_row left.0 run) ∗ sem 𝓛 (place rule_row left.1 rule)) ∗ ⌜ unless (any_null (run ∷ rule ∷ [])) ((left ≡ lent) × (result ≡ null_reply)) (started lent.0 lent.1 left.0 left.1 result) ⌝) }
{
    if run.is_null() | rule.is_null() {
        return refused_null();
    }
    start_in(&mut *(run as *mut RunOverCells), &mut *(rule as *mut Rule))
}

/// Ends the run of the run place, and gives its rule back to the rule place.
#[unsafe(no_mangle)]
pub unsafe extern "C" fn fun_close(run: *mut (), rule: *mut ()) -> Reply
    ghost lent: { RunAt × RuleAt }
    requires testable { Testable run × Testable rule }
    requires* memory { sem 𝓛 (place run_row lent.0 run) ∗ sem 𝓛 (place rule_row lent.1 rule) }
    ensures* { ex 𝓤 (λ (left : RunAt × RuleAt). (sem 𝓛 (place run_row left.0 run) ∗ sem 𝓛 (place rule_row left.1 rule)) ∗ ⌜ unless (any_null (run ∷ rule ∷ [])) ((left ≡ lent) × (result ≡ null_reply)) (Closing lent.0 lent.1 left.0 left.1 result) ⌝) }
{
    if run.is_null() | rule.is_null() {
        return refused_null();
    }
    close_in(&mut *(run as *mut RunOverCells), &mut *(rule as *mut Rule))
}

/// Replies with the free room that the last run left in the cells.
#[unsafe(no_mangle)]
pub unsafe extern "C" fn fun_free(run: *mut ()) -> Reply
    ghost lent: { RunAt }
    requires testable { Testable run }
    requires* memory { sem 𝓛 (place run_row lent run) }
    ensures* { ex 𝓤 (λ (left : RunAt). sem 𝓛 (place run_row left run) ∗ ⌜ unless (any_null (run ∷ [])) ((left ≡ lent) × (result ≡ null_reply)) ((left ≡ lent) × (result ≡ freed room lent)) ⌝) }
{
    if run.is_null() {
        return refused_null();
    }
    free_in(&mut *(run as *mut RunOverCells))
}

/// Puts a new rule into the rule place, whatever stands there: the rule `0`.
#[unsafe(no_mangle)]
pub unsafe extern "C" fn fun_rule_new(rule: *mut ()) -> Reply
    requires testable { Testable rule }
    requires* memory { sem 𝓛 (vacant rule_row rule) }
    ensures* { ex 𝓤 (λ (left : Option RuleAt). sem 𝓛 (made rule_row left rule) ∗ ⌜ unless (any_null (rule ∷ [])) (IsNotMade left × (result ≡ null_reply)) (IsMade left (λ new. IsRule new 0 (number (pos 0))) × (result ≡ done_reply)) ⌝) }
{
    if rule.is_null() {
        return refused_null();
    }
    let rule = rule as *mut Rule;
    rule.write(Rule::new());
    done()
}

/// Puts a run place over these cells into the place, whatever stands there. It keeps the cells for good.
#[unsafe(no_mangle)]
pub unsafe extern "C" fn fun_run_new(run: *mut (), cells: *mut Cell<Value>, count: usize) -> Reply
    ghost lent: { List CellAt }
    requires testable { Testable run × Testable cells }
    requires fits { Room cell_row count }
    requires* memory { sem 𝓛 (vacant run_row run) ∗ sem 𝓛 (slots cell_row count lent cells) }
    ensures* { ex 𝓤 (λ (left : Option RunAt). (sem 𝓛 (made run_row left run) ∗ sem 𝓛 (comes_back left (slots cell_row count lent cells))) ∗ ⌜ unless (any_null (run ∷ cells ∷ [])) (IsNotMade left × (result ≡ null_reply)) (IsMade left (λ new. fresh_over count new) × (result ≡ done_reply)) ⌝) }
{
    if run.is_null() | cells.is_null() {
        return refused_null();
    }
    let run = run as *mut RunOverCells;
    run.write(over(std::slice::from_raw_parts_mut(cells, count)));
    done()
}
