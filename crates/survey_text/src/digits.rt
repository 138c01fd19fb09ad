ghost use Rattle.std.specs.Prelude.{◌≡◌, ◌^◌, ◌≤◌, false, IfOk};
ghost use Rattle.std.specs.Float.{binary64};
ghost use Rattle.std.specs.Float.Ieee.{round};
ghost use Rattle.survey_text.specs.Digits.{read_digit, read_on, number as number_of, fraction as fraction_of, share as share_of, most_digits};
ghost use Rattle.survey_text.specs.Words.{front, whole as whole_of};

use crate::words::cut;
use std::num::nearest_u64_to_f64;

// The largest number of 15 digits.
const MOST_DIGITS: u64 = 999_999_999_999_999;

// Why a word is no number.
#[derive(Clone, Copy)]
pub(crate) enum Unreadable {
    // it has other bytes than decimal digits
    NotDigits,
    // it is above the largest that is allowed
    TooLarge,
}

// One digit more.
fn next(read: Result<u64, Unreadable>, byte: u8, most: u64) -> Result<u64, Unreadable>
    ensures { result ≡ read_digit most read byte }
{
    if !byte.is_ascii_digit() {
        return Err(Unreadable::NotDigits);
    }
    let more = u128::from(read?) * 10 + u128::from(byte - b'0');
    if more <= u128::from(most) {
        Ok(more as u64)
    } else {
        Err(Unreadable::TooLarge)
    }
}

// The digits of the word, read on from what was read before.
fn read_on(start: Result<u64, Unreadable>, word: &[u8], most: u64) -> Result<u64, Unreadable>
    ensures { result ≡ read_on most start word.now }
{
    word.iter()
        .fold(start, |read, byte| next(read, *byte, most))
}

// The whole number that the word writes; the empty word writes none.
pub(crate) fn number(word: &[u8], most: u64) -> Result<u64, Unreadable>
    ensures value { result ≡ number_of most word.now }
    ensures within { IfOk result (λ n. n ≤ most) }
{
    if word.is_empty() {
        return Err(Unreadable::NotDigits);
    }
    read_on(Ok(0), word, most)
}

// The decimal number that the word writes, as the float nearest to it: 1 to 15 digits, with or without a
// point.
pub(crate) fn share(word: &[u8]) -> Option<f64>
    ensures { result ≡ share_of word.now }
{
    let (whole, fraction) = parts(word);
    let digits = whole.len() + fraction.len();
    if digits < 1 || digits > 15 {
        return None;
    }
    let read = read_on(Ok(0), whole, MOST_DIGITS);
    let n = read_on(read, fraction, MOST_DIGITS).ok()?;
    Some(quotient(n, fraction.len()))
}

// What stands before the decimal point, and what stands behind it.
fn parts(word: &[u8]) -> (&[u8], &[u8])
    ensures whole { result.0.now ≡ front whole_of word.now }
    ensures fraction { result.1.now ≡ fraction_of word.now }
{
    let (whole, rest) = cut(word, |byte| *byte == b'.');
    match rest.split_first() {
        Some((_, fraction)) => (whole, fraction),
        None => (whole, rest),
    }
}

// n / 10^places, as the float nearest to it: both are floats, so that only the division rounds.
fn quotient(n: u64, places: usize) -> f64
    requires { (n ≤ most_digits) × (places ≤ 15) }
    ensures { result ≡ round binary64 false n (10 ^ places) }
{
    nearest_u64_to_f64(n) / nearest_u64_to_f64(10u64.pow(places as u32))
}
