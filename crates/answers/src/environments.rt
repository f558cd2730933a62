//! The environments that stand in a store.
//!
//! A store tells only what its handles are asked. Both stores answer higher handles for later lists, and none above the
//! room that is used; so each handle up to that is asked once.
use std::alloc::{AllocError, Global};
use store::contract::Store;
use store::fault::StoreFault;
use values::Value;

/// `#k=elements` for each list beside that of handle 0, in the order in which they were made.
pub(crate) fn environments<S: Store<Elem = Value>>(
    heap: Global,
    store: &S,
    used: u32,
) -> Result<Vec<String>, AllocError> {
    let handles: Vec<u32> = (0..=used)
        .filter(|handle| length(store, *handle).is_some())
        .collect(heap)?;
    let mut lists = Vec::new(heap);
    for (order, handle) in handles.iter().enumerate().skip(1) {
        let elements = elements(heap, store, handles.as_slice(), *handle)?;
        lists.push(format!(in heap; "#{order}={elements}")?)?;
    }
    Ok(lists)
}

/// How many elements the list of a handle has, where it has a list.
fn length<S: Store<Elem = Value>>(store: &S, handle: u32) -> Option<u32> {
    match store.look(handle, u32::MAX) {
        Err(StoreFault::Beyond { length }) => Some(length),
        _ => None,
    }
}

/// The elements of a handle's list, joined by commas.
fn elements<S: Store<Elem = Value>>(
    heap: Global,
    store: &S,
    handles: &[u32],
    handle: u32,
) -> Result<String, AllocError> {
    let count = length(store, handle).unwrap_or(0);
    let elements: Vec<String> = (0..count)
        .filter_map(|index| store.look(handle, index).ok())
        .map(|element| shown(heap, handles, element))
        .try_collect(heap)?;
    elements.join(heap, ",")
}

/// An element. A function shows its node, and the order of the environment that it was met in.
fn shown(heap: Global, handles: &[u32], element: Value) -> Result<String, AllocError> {
    match element {
        Value::Number(number) => number.to_string(heap),
        Value::Truth(truth) => truth.to_string(heap),
        Value::Function { node, environment } => {
            let (Ok(order) | Err(order)) = handles.binary_search(&environment);
            format!(in heap; "fun{node}#{order}")
        }
    }
}
