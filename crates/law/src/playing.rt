//! Whole runs.
ghost use Rattle.std.specs.Prelude.{◌≡◌, ℕ};
ghost use Rattle.syntax.specs.Tree.{Tree};
ghost use Rattle.typing.specs.Accepting.{IsRule};
ghost use Rattle.machine.specs.Reducing.{room_of};
ghost use Rattle.law.specs.Turns.{calls_of};
ghost use Rattle.law.specs.Law.{Called, HoldsOf, Law, played};

use crate::turn::{Call, Reply, Turn};
use run::{Closed, Report, Run};
use store::contract::{BareStore, Store};
use typing::rule::Rule;
use values::Value;

/// What is left of a run that was closed, with what ask told at the end.
pub struct Played<S> {
    pub rule: Rule,
    pub store: S,
    pub report: Report,
}

/// What is left of two runs.
pub struct Both<S, T> {
    pub one: Played<S>,
    pub two: Played<T>,
}

/// Makes one call of a run.
fn reply_to<S: BareStore + Store<Elem = Value>>(run: &mut Run<S>, call: Call) -> Reply
    ensures rule { run.new.rule ≡ run.old.rule }
    ensures whole { S.Store.whole run.new.store ≡ S.Store.whole run.old.store }
    ensures cost { S.Store.cost run.new.store ≡ S.Store.cost run.old.store }
    ensures called { Called S.Store.lists S.Store.whole S.Store.room S.Store.cost run.old run.new call.entry result }
{
    match call {
        Call::Grant(steps) => match run.grant(steps) {
            Ok(()) => Reply::Done,
            Err(fault) => Reply::Refused(fault),
        },
        Call::Ask => Reply::Told(run.ask()),
        Call::Rewind(readings) => match run.rewind(readings) {
            Ok(()) => Reply::Done,
            Err(fault) => Reply::Refused(fault),
        },
    }
}

/// Starts a run, makes these calls of it, each reply beside its call, asks once more and closes it.
pub fn play<S: BareStore + Store<Elem = Value>>(
    rule: Rule,
    store: S,
    turns: &mut [Turn],
) -> Played<S>
    ensures calls { calls_of turns.new ≡ calls_of turns.old }
    ensures rule { result.rule ≡ rule }
    ensures whole { S.Store.whole result.store ≡ S.Store.whole store }
    ensures cost { S.Store.cost result.store ≡ S.Store.cost store }
    ensures law { (r : ℕ) (t : Tree) → IsRule rule r t
        → HoldsOf (played (room_of (S.Store.whole store) (S.Store.cost store)) r t rule.nodes.items turns.new
        result.report (S.Store.room result.store) (S.Store.lists result.store)) }
{
    let mut run = Run::start(rule, store);
    for turn in turns.iter_mut() {
        turn.reply = reply_to(&mut run, turn.call);
    }
    let report = run.ask();
    let Closed { rule, store } = run.close();
    Played {
        rule,
        store,
        report,
    }
}

/// Plays two runs, whatever stores they have, one after the other.
pub fn play_two<S: BareStore + Store<Elem = Value>, T: BareStore + Store<Elem = Value>>(
    rule: Rule,
    store: S,
    turns: &mut [Turn],
    other: Rule,
    other_store: T,
    other_turns: &mut [Turn],
) -> Both<S, T>
    ensures calls { (calls_of turns.new ≡ calls_of turns.old) × (calls_of other_turns.new ≡ calls_of other_turns.old) }
    ensures rules { (result.one.rule ≡ rule) × (result.two.rule ≡ other) }
    ensures whole { (S.Store.whole result.one.store ≡ S.Store.whole store)
        × (T.Store.whole result.two.store ≡ T.Store.whole other_store) }
    ensures cost { (S.Store.cost result.one.store ≡ S.Store.cost store)
        × (T.Store.cost result.two.store ≡ T.Store.cost other_store) }
    ensures law { (r q : ℕ) (t u : Tree) → IsRule rule r t → IsRule other q u
        → Law (played (room_of (S.Store.whole store) (S.Store.cost store)) r t rule.nodes.items turns.new
        result.one.report (S.Store.room result.one.store) (S.Store.lists result.one.store))
        (played (room_of (T.Store.whole other_store) (T.Store.cost other_store)) q u other.nodes.items other_turns.new
        result.two.report (T.Store.room result.two.store) (T.Store.lists result.two.store)) }
{
    Both {
        one: play(rule, store, turns),
        two: play(other, other_store, other_turns),
    }
}
