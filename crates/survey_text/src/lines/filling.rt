ghost use Rattle.std.specs.Prelude.{◌≡◌, false, []};
ghost use Rattle.survey_text.specs.Lines.{kept, lengthened, overrun};

use super::{LINE_BYTES, Line};

impl Line {
    // An empty line.
    pub fn new() -> Line
        ensures bytes { kept result ≡ [] }
        ensures overlong { result.overlong ≡ false }
    {
        Line {
            bytes: [0; LINE_BYTES],
            len: 0,
            overlong: false,
        }
    }

    // Begins the next line.
    pub fn clear(&mut self)
        ensures bytes { kept self.new ≡ [] }
        ensures overlong { self.new.overlong ≡ false }
    {
        self.len = 0;
        self.overlong = false;
    }

    // One byte more.
    pub fn push(&mut self, byte: u8)
        ensures bytes { kept self.new ≡ lengthened (kept self.old) byte }
        ensures overlong { self.new.overlong ≡ overrun (kept self.old) self.old.overlong }
    {
        if self.len < LINE_BYTES {
            self.bytes[self.len] = byte;
            self.len += 1;
        } else {
            self.overlong = true;
        }
    }
}
