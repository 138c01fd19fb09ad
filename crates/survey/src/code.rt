ghost use Rattle.std.specs.Prelude.{◌≤◌};

mod text;

// The text of an observation code, 1 to 8 bytes. A key is copied and lies in fixed memory, so this is an array and
// a length. No equality is derived: it would compare the bytes past the text too.
#[derive(Clone, Copy)]
pub struct Code {
    bytes: [u8; 8],
    len: u8,
    ghost some: { 1 ≤ len },
    ghost few: { len ≤ 8 },
}
