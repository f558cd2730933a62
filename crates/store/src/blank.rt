//! Elements that have a blank, which a store writes where nothing stands.
ghost use Rattle.std.specs.Prelude.{◌≡◌, pos};

/// An element that has a blank.
// The library's Default says what holds of a default and not which it is, and contracts have to name the blank.
pub trait Blank {
    ghost unwritten: { Self };

    fn blank() -> Self
        ensures { result ≡ unwritten };
}

impl Blank for u32 {
    ghost unwritten = { 0 };

    fn blank() -> u32 {
        0u32
    }
}

impl Blank for u16 {
    ghost unwritten = { 0 };

    fn blank() -> u16 {
        0u16
    }
}

impl Blank for i32 {
    ghost unwritten = { pos 0 };

    fn blank() -> i32 {
        0i32
    }
}
