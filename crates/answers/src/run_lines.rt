//! Lines of the kinds `run` and `lists`: `STORE SIZE RECORD CALLS`, where the record is in hexadecimal, and the calls are
//! `gN`, `rA:B:C` and `a`, or `-` for none. Lines of the kind `lists` are also told the environments that were made.
use crate::environments::environments;
use crate::fields::{Fields, bytes, given};
use crate::memory::{Memory, OnStore};
use crate::trouble::Trouble;
use crate::turns::{Asked, Told};
use law::{Played, Turn, play};
use std::alloc::Global;
use store::contract::{BareStore, Store};
use syntax::limits::MOST_NODES;
use typing::accept::accept;
use typing::rule::Rule;
use values::Value;

/// How many entries a work table needs at most: 3 for each node, and 2.
const TABLE: usize = 3 * MOST_NODES + 2;

/// How many entries of a type there is room for. A line tells no type, and a rule with a longer one is refused.
const MOST_ENTRIES: usize = 65_536;

/// What a line tells of the store.
#[derive(Clone, Copy, PartialEq, Eq)]
pub(crate) enum After {
    Room,
    RoomAndLists,
}

/// A rule with the calls of a run, and what to tell behind the replies.
#[derive(Drop)]
struct Line {
    rule: Rule,
    calls: Vec<Asked>,
    after: After,
}

/// Plays the calls of one line on a store of its own.
pub(crate) fn answer(heap: Global, mut fields: Fields, after: After) -> Result<String, Trouble> {
    let memory = Memory::read(&mut fields)?;
    let record = bytes(heap, fields.next())?;
    let calls = calls_of(heap, fields.last())?;
    let rule = accepted(heap, record.as_slice())?;
    memory.lend(heap, Line { rule, calls, after })
}

/// The calls of a line.
fn calls_of(heap: Global, calls: &str) -> Result<Vec<Asked>, Trouble> {
    let Some(calls) = given(calls) else {
        return Ok(Vec::new(heap));
    };
    calls
        .split(',')
        .map(|call| Asked::read(heap, call))
        .try_collect(heap)
}

/// The rule of a record.
fn accepted(heap: Global, record: &[u8]) -> Result<Rule, Trouble> {
    let mut first = vec![in heap; 0u16; TABLE]?;
    let mut second = vec![in heap; 0u16; TABLE]?;
    let mut types = vec![in heap; 0u16; MOST_ENTRIES]?;
    let mut rule = Rule::new();
    accept(record, &mut first, &mut second, &mut types, &mut rule)?;
    Ok(rule)
}

impl OnStore for Line {
    /// The replies, the free room, and the environments where they are asked for, joined by `; `.
    fn on<S: BareStore + Store<Elem = Value> + Drop>(
        self,
        heap: Global,
        store: S,
    ) -> Result<String, Trouble> {
        let Line { rule, calls, after } = self;
        let whole = store.free();
        let mut turns: Vec<Turn> = calls.iter().map(|call| call.turn()).collect(heap)?;
        let Played {
            rule: _,
            store,
            report: _,
        } = play(rule, store, &mut turns);
        let mut told: Vec<String> = turns
            .iter()
            .map(|turn| Told(turn.reply).to_string(heap))
            .try_collect(heap)?;
        let free = store.free();
        told.push(format!(in heap; "closed free={free}")?)?;
        if after == After::RoomAndLists {
            told.extend(environments(heap, &store, whole.saturating_sub(free))?)?;
        }
        Ok(told.join(heap, "; ")?)
    }
}
