ghost use Rattle.std.specs.Prelude.{◌≡◌, length, is_some, min, nat_lt, take};
ghost use Rattle.std.specs.List.{slice_get};
ghost use Rattle.survey.specs.FirstRows.{First, none, noted};

use std::marker::Model;

// The first `N` rows that were noted, in their order, and how many were noted.
#[derive(Drop)]
pub struct FirstRows<T: Copy, const N: usize> {
    // an array and a count: an `ArrayVec` would want a default of each row type, and the count may be more than the
    // rows
    rows: [T; N],
    count: u64,
}

// Clauses see the rows that stand, and the count.
impl<T: Copy, const N: usize> Model for FirstRows<T, N> {
    ghost Value = { First T };

    ghost view = { λ f. record { rows = take (min f.count N) f.rows; count = f.count } };
}

impl<T: Copy, const N: usize> FirstRows<T, N> {
    // No rows yet. The places hold `blank`, which nobody sees.
    pub fn filled(blank: T) -> FirstRows<T, N>
        ensures { result ≡ none }
    {
        FirstRows {
            rows: [blank; N],
            count: 0,
        }
    }

    // How many rows were noted, up to 2^64 - 1. Those past `N` stand nowhere.
    pub fn count(&self) -> u64
        ensures { result ≡ self.now.count }
    {
        self.count
    }

    // The rows that stand.
    pub fn rows(&self) -> &[T]
        ensures rows { result.now ≡ self.now.rows }
        ensures few { length result.now ≡ min self.now.count N }
    {
        let standing = self.count.min(N as u64) as usize;
        &self.rows[..standing]
    }

    // The row that was noted as number `i`, counted from 0; none if fewer were noted, and from `N` on.
    pub fn row(&self, i: usize) -> Option<T>
        ensures row { result ≡ slice_get self.now.rows i }
        ensures some { is_some result ≡ nat_lt i (min self.now.count N) }
    {
        self.rows().get(i).copied()
    }

    // One more.
    pub fn note(&mut self, row: T)
        ensures { self.new ≡ noted N self.old row }
    {
        if self.count < N as u64 {
            self.rows[self.count as usize] = row;
        }
        self.count = self.count.saturating_add(1);
    }
}
