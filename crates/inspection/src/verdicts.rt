ghost use Rattle.std.specs.Prelude.{◌≡◌, ℕ, Some, nat_le};
ghost use Rattle.inspection.specs.Printed.{verdict_words, inspected_words};
ghost use Rattle.survey.specs.Lengths.{trim};
ghost use Rattle.survey.specs.Weights.{length_weight};
ghost use Rattle.inspection.specs.Verdicts.{judge, let_in};

use interface::Weighter;
use std::fmt;
use survey::keys::LengthNumber;
use survey::length::Length;
use survey::weight::LengthWeighter;

// What the box would do with a pipe length.
#[derive(Clone, Copy, PartialEq, Eq, Debug)]
pub enum Verdict {
    // no box is set up
    Unjudged,
    // it is let in as it is
    Fits,
    // it is above the hot target, and is let in without its picture
    FitsTrimmed,
    // it is above the hot target even without its picture
    TooHeavy,
}

impl fmt::Display for Verdict {
    ghost output = { λ v. Some (verdict_words v) };

    fn fmt<W: fmt::Write>(&self, f: &mut fmt::Formatter<W>) -> fmt::Result {
        f.write_str(match self {
            Verdict::Unjudged => "no box to judge by",
            Verdict::Fits => "fits",
            Verdict::FitsTrimmed => "above the hot target, fits trimmed",
            Verdict::TooHeavy => "above the hot target, too heavy even trimmed",
        })
    }
}

// What a pipe length weighs, what it weighs without its picture, and the verdict.
#[derive(Clone, Copy, PartialEq, Eq, Debug)]
pub struct Inspected {
    pub weight: u32,
    pub trimmed: u32,
    pub verdict: Verdict,
}

impl fmt::Display for Inspected {
    ghost output = { λ i. Some (inspected_words i) };

    fn fmt<W: fmt::Write>(&self, f: &mut fmt::Formatter<W>) -> fmt::Result {
        write!(
            f,
            "weight {}, trimmed {}: {}",
            self.weight, self.trimmed, self.verdict
        )
    }
}

// The verdict under this hot target. A pipe length is let in exactly if its weight after a trim is at most the
// target.
pub fn inspect(target: Option<u64>, key: LengthNumber, length: Length) -> Inspected
    ensures weight { result.weight ≡ length_weight length }
    ensures trimmed { result.trimmed ≡ length_weight (trim length) }
    ensures verdict { result.verdict ≡ judge target (length_weight length) (length_weight (trim length)) }
    ensures admitted { (limit : ℕ) → target ≡ Some limit → let_in result.verdict ≡ nat_le (length_weight (trim length)) limit }
{
    let weight = LengthWeighter.weigh(&key, &length);
    let trimmed = LengthWeighter.weigh(&key, &length.trimmed());
    let verdict = match target {
        None => Verdict::Unjudged,
        Some(limit) if u64::from(weight) <= limit => Verdict::Fits,
        Some(limit) if u64::from(trimmed) <= limit => Verdict::FitsTrimmed,
        Some(_) => Verdict::TooHeavy,
    };
    Inspected {
        weight,
        trimmed,
        verdict,
    }
}
