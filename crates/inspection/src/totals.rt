ghost use Rattle.std.specs.Prelude.{◌≡◌, Some};
ghost use Rattle.inspection.specs.Printed.{balance_words};
ghost use Rattle.inspection.specs.Sums.{tallied, balance};

use crate::verdicts::{Inspected, Verdict};
use std::fmt;

// How many pipe lengths came, by verdict, how many of them were corrected, and what those that the box lets in
// weigh together. Each stops at 2^64 - 1.
#[derive(Clone, Copy, PartialEq, Eq, Debug, Default)]
pub struct Totals {
    pub lengths: u64,
    pub fits: u64,
    pub trimmed: u64,
    pub heavy: u64,
    pub unjudged: u64,
    pub corrected: u64,
    pub weight: u64,
}

// What is left of the capacity, or how much is over it. Neither is an error, so this is no `Result`.
#[derive(Clone, Copy, PartialEq, Eq, Debug)]
pub enum Balance {
    Left(u64),
    Over(u64),
}

impl fmt::Display for Balance {
    ghost output = { λ b. Some (balance_words b) };

    fn fmt<W: fmt::Write>(&self, f: &mut fmt::Formatter<W>) -> fmt::Result {
        match self {
            Balance::Left(left) => write!(f, "{left} left"),
            Balance::Over(over) => write!(f, "{over} over"),
        }
    }
}

impl Totals {
    // One pipe length more.
    pub(crate) fn add(&mut self, inspected: Inspected, corrected: bool)
        ensures { self.new ≡ tallied self.old inspected corrected }
    {
        self.lengths = self.lengths.saturating_add(1);
        self.corrected = self.corrected.saturating_add(u64::from(corrected));
        match inspected.verdict {
            Verdict::Unjudged => self.unjudged = self.unjudged.saturating_add(1),
            Verdict::TooHeavy => self.heavy = self.heavy.saturating_add(1),
            Verdict::Fits => {
                self.fits = self.fits.saturating_add(1);
                self.weight = self.weight.saturating_add(u64::from(inspected.weight));
            }
            Verdict::FitsTrimmed => {
                self.trimmed = self.trimmed.saturating_add(1);
                self.weight = self.weight.saturating_add(u64::from(inspected.trimmed));
            }
        }
    }

    // How the weight of what is let in compares with the capacity.
    pub fn against(self, capacity: u64) -> Balance
        ensures { result ≡ balance self.weight capacity }
    {
        if self.weight <= capacity {
            Balance::Left(capacity - self.weight)
        } else {
            Balance::Over(self.weight - capacity)
        }
    }
}
