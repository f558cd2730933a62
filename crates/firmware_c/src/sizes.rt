//! How many bytes the places and cells take, all of them aligned to 8.
use crate::lent::RunOverCells;
use book::book::Book;
use linked::cell::Cell;
use typing::rule::Rule;
use values::Value;

#[unsafe(no_mangle)]
pub extern "C" fn fun_rule_size() -> usize {
    size_of::<Rule>()
}

#[unsafe(no_mangle)]
pub extern "C" fn fun_run_size() -> usize {
    size_of::<RunOverCells>()
}

#[unsafe(no_mangle)]
pub extern "C" fn fun_book_size() -> usize {
    size_of::<Book>()
}

#[unsafe(no_mangle)]
pub extern "C" fn fun_cell_size() -> usize {
    size_of::<Cell<Value>>()
}
