//! Lines of the kind `store`: `STORE SIZE LAYER CALLS`, where LAYER is `-` or the readings of a
//! layer above the store, and the calls are `c`, `eH:V`, `lH:I` and `f`.
use crate::calls::{Answer, Call};
use crate::fields::{Fields, given, numbers};
use crate::memory::{Memory, OnStore};
use crate::trouble::Trouble;
use readings::layer::ReadingsLayer;
use readings::readings_list::Readings;
use std::alloc::{AllocError, Global};
use store::contract::{BareStore, Store};
use store::fault::StoreFault;
use values::Value;

/// The layer above a store and the calls, as a line has them.
#[derive(Clone, Copy)]
struct Line<'a> {
    layer: &'a str,
    calls: &'a str,
}

/// Answers the calls of one line on a store of its own.
pub(crate) fn answer(heap: Global, mut fields: Fields) -> Result<String, Trouble> {
    let memory = Memory::read(&mut fields)?;
    let layer = fields.next();
    let calls = fields.last();
    memory.lend(heap, Line { layer, calls })
}

impl OnStore for Line<'_> {
    /// Lays the readings over the store, where the line has a layer.
    fn on<S: BareStore + Store<Elem = Value> + Drop>(
        self,
        heap: Global,
        mut store: S,
    ) -> Result<String, Trouble> {
        let Some(layer) = given(self.layer) else {
            return answer_calls(heap, &mut store, self.calls);
        };
        let numbers = numbers(heap, layer)?;
        let mut layered = ReadingsLayer::new(store, Readings::new(numbers.as_slice()));
        let answers = answer_calls(heap, &mut layered, self.calls);
        drop(layered.into_below());
        answers
    }
}

/// The answers to all calls, joined by `; `.
fn answer_calls<S: Store<Elem = Value>>(
    heap: Global,
    store: &mut S,
    calls: &str,
) -> Result<String, Trouble> {
    let Some(calls) = given(calls) else {
        return Ok(String::new(heap));
    };
    let mut handles = Vec::new(heap);
    let mut told = String::new(heap);
    for call in calls.split(',') {
        let call = Call::read(call, handles.as_slice())?;
        let answer = answer_call(store, &mut handles, call)?;
        if !told.is_empty() {
            told.push_str("; ")?;
        }
        match answer {
            Ok(answer) => write!(told, "{answer}")?,
            Err(fault) => write!(told, "refused {}", fault.number())?,
        }
    }
    Ok(told)
}

/// The answer to one call. The handles of `extend` are kept in their order until the next `clear`.
fn answer_call<S: Store<Elem = Value>>(
    store: &mut S,
    handles: &mut Vec<u32>,
    call: Call,
) -> Result<Result<Answer, StoreFault>, AllocError> {
    match call {
        Call::Clear => {
            store.clear();
            handles.clear();
            Ok(Ok(Answer::Cleared))
        }
        Call::Free => Ok(Ok(Answer::Free(store.free()))),
        // To keep the handle may fail for want of memory, and what `map` calls takes no `?` along.
        Call::Extend { handle, value } => match store.extend(handle, Value::Number(value)) {
            Ok(handle) => {
                handles.push(handle)?;
                Ok(Ok(Answer::Extended(handles.len())))
            }
            Err(fault) => Ok(Err(fault)),
        },
        Call::Look { handle, index } => {
            Ok(store.look(handle, index).map(|value| Answer::Found(value)))
        }
    }
}
