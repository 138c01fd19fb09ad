ghost use Rattle.std.specs.Prelude.{◌≡◌, ℕ, Bool, drop, length};
ghost use Rattle.std.specs.List.{before_first, position_or_len};
ghost use Rattle.std.specs.Iterator.{ActsAs, at_most};
ghost use Rattle.survey_text.specs.Words.{blank, content as content_of, first_word, after_word};
ghost use Rattle.survey_text.specs.Cuts.{NextWord};

// Is the byte a space, a tab or a carriage return, which stand between words?
fn is_blank(byte: &u8) -> bool
    ensures { result ≡ blank byte.now }
{
    matches!(*byte, b' ' | b'\t' | b'\r')
}

// The text cut before the first byte that passes the test, or at its end where none does.
pub(crate) fn cut<F: FnMut(&u8) -> bool>(text: &[u8], ends: F) -> (&[u8], &[u8])
    requires { F.IsAlwaysCallable ends }
    ensures front { (test : ℕ → Bool) → ActsAs F.FnMut ends (λ x. test x.now) → result.0.now ≡ before_first test text.now }
    ensures behind { (test : ℕ → Bool) → ActsAs F.FnMut ends (λ x. test x.now) → result.1.now ≡ drop (position_or_len test text.now) text.now }
{
    let end = text.iter().position(ends).unwrap_or(text.len());
    text.split_at(end)
}

// The line without its comment.
pub(crate) fn content(line: &[u8]) -> &[u8]
    ensures { result.now ≡ content_of line.now }
{
    cut(line, |byte| *byte == b'#').0
}

// The first word of the text, empty where there is none, and what follows it.
fn next_word(text: &[u8]) -> (&[u8], &[u8])
    ensures word { result.0.now ≡ first_word text.now }
    ensures rest { result.1.now ≡ after_word text.now }
{
    let (_, start) = cut(text, |byte| !is_blank(byte));
    cut(start, is_blank)
}

// The words of a text, one after the other.
#[derive(Clone, Copy)]
pub(crate) struct Words<'a> {
    rest: &'a [u8],
}

impl<'a> Words<'a> {
    // All words of the text.
    pub(crate) fn of(text: &'a [u8]) -> Words<'a>
        ensures { result.rest.now ≡ text.now }
    {
        Words { rest: text }
    }
}

impl<'a> Iterator for Words<'a> {
    type Item = &'a [u8];

    ghost next_gives = { NextWord };

    ghost remaining = { λ words. at_most (length words.rest.now) };

    fn next(&mut self) -> Option<&'a [u8]> {
        let (word, rest) = next_word(self.rest);
        self.rest = rest;
        if word.is_empty() { None } else { Some(word) }
    }
}
