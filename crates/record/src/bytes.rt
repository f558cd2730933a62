//! Numbers in bytes, the highest byte first.
ghost use Rattle.std.specs.Prelude.{◌≡◌, ◌+◌, ◌<◌, ◌≤◌, length, take, drop};
ghost use Rattle.syntax.specs.Record.{four_bytes, two_bytes};
ghost use Rattle.record.specs.Bytes.{Stands, two_at};

/// As many bytes as are asked for, from a place on.
// With the rest of the slice in place of `bytes, place`, what is said of a record's places would be carried over at each call.
fn array_at<const N: usize>(bytes: &[u8], place: usize) -> [u8; N]
    requires { place + N ≤ length bytes.now }
    ensures { result ≡ take N (drop place bytes.now) }
{
    *bytes[place..].first_chunk().unwrap()
}

/// What two bytes come to.
pub(crate) fn two_bytes(bytes: &[u8], place: usize) -> u16
    requires { place + 2 ≤ length bytes.now }
    ensures value { result ≡ two_at bytes.now place }
    ensures bytes { Stands bytes.now place (two_bytes result) }
{
    u16::from_be_bytes(array_at(bytes, place))
}

/// The number whose two's complement four bytes are.
pub(crate) fn four_bytes(bytes: &[u8], place: usize) -> i32
    requires { place + 4 ≤ length bytes.now }
    ensures bytes { Stands bytes.now place (four_bytes result) }
{
    i32::from_be_bytes(array_at(bytes, place))
}
