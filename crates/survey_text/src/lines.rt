ghost use Rattle.std.specs.Prelude.{◌≤◌};

mod filling;
mod reading;

// How many bytes of a line are kept.
pub const LINE_BYTES: usize = 1024;

// A line as it comes in, byte by byte. Of an overlong line the beginning is kept.
#[derive(Drop)]
pub struct Line {
    // an array and a length: an `ArrayVec` writes over all its bytes when it is cleared
    bytes: [u8; LINE_BYTES],
    len: usize,
    overlong: bool,
    ghost within: { len ≤ 1024 },
}
