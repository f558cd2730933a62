//! Where a list lies among the slots.

/// The slots of a list's elements, side by side.
#[derive(Clone, Copy)]
pub(crate) struct Span {
    pub(crate) begins: usize,
    pub(crate) length: u32,
}
