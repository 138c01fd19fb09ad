ghost use Rattle.std.specs.Prelude.{◌≡◌, length, is_some, IfSome};
ghost use Rattle.survey.specs.Codes.{fits, text_of};

use crate::code::Code;

impl Code {
    // The code of this text; none where the text is empty or has more than 8 bytes.
    pub fn new(text: &[u8]) -> Option<Code>
        ensures made { is_some result ≡ fits (length text.now) }
        ensures same { IfSome result (λ c. text_of c ≡ text.now) }
    {
        let len = text.len();
        if len == 0 || len > 8 {
            return None;
        }
        let mut bytes = [0; 8];
        bytes[..len].copy_from_slice(text);
        Some(Code {
            bytes,
            len: len as u8,
        })
    }

    // How many bytes the text has, 1 to 8.
    pub fn len(&self) -> usize
        ensures { result ≡ length (text_of self.now) }
    {
        self.len as usize
    }

    // The text.
    pub fn as_bytes(&self) -> &[u8]
        ensures { result.now ≡ text_of self.now }
    {
        &self.bytes[..self.len as usize]
    }
}
