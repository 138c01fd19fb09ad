// What the length cache does with the records that leave it: corrected ones are noted in a buffer, which the
// caller lends to each call and then writes to the survey file.
ghost use Rattle.std.specs.Prelude.{◌≡◌, length, is_some, Some, min, nat_lt};
ghost use Rattle.std.specs.List.{slice_get};
ghost use Rattle.survey.specs.FirstRows.{none};
ghost use Rattle.survey.specs.Printed.{row_words};
ghost use Rattle.survey.specs.WritingBack.{standing, noted, write_back, Gathers};

use crate::first_rows::FirstRows;
use crate::keys::LengthNumber;
use crate::length::Length;
use interface::Lifecycle;
use std::fmt;
use std::marker::Model;

// How many rows a buffer has.
pub const ROWS: usize = 256;

// A corrected record that left the cache, with its key.
#[derive(Clone, Copy, PartialEq, Eq, Debug)]
pub struct Row {
    pub key: LengthNumber,
    pub val: Length,
}

impl fmt::Display for Row {
    ghost output = { λ row. Some (row_words row) };

    fn fmt<W: fmt::Write>(&self, f: &mut fmt::Formatter<W>) -> fmt::Result {
        write!(
            f,
            "length {} at place {}: observations {}, picture step {}",
            self.key.0,
            self.val.place(),
            self.val.observations(),
            self.val.step()
        )
    }
}

// The corrected records that left the cache: the first 256 of them in their order, and how many there were. Write-back
// alone notes records in it.
#[derive(Drop)]
pub struct WriteBackBuffer {
    kept: FirstRows<Row, ROWS>,
}

// Clauses see what is kept.
impl Model for WriteBackBuffer {
    ghost use Rattle.survey.specs.FirstRows.{First};
    ghost use Rattle.survey.specs.declared.write_back.Row.{Row};

    ghost Value = { First Row };

    ghost view = { λ b. b.kept };
}

impl WriteBackBuffer {
    // A buffer without records. Whatever write-back is called with from here on, the rows hold the first 256
    // corrected records that went to a hook, in their order, and the count says how many there were.
    #[tactic(auto, using(crate::proofs::Gathering::gathers))]
    pub fn new() -> WriteBackBuffer
        ensures none { result ≡ none }
        ensures count { result.count ≡ 0 }
        ensures gathers { Gathers result }
    {
        WriteBackBuffer {
            kept: FirstRows::filled(Row {
                key: LengthNumber(0),
                val: Length::blank(),
            }),
        }
    }

    // How many corrected records left the cache, up to 2^64 - 1. Those past 256 are in no row.
    pub fn count(&self) -> u64
        ensures { result ≡ self.now.count }
    {
        self.kept.count()
    }

    // The corrected records that stand in rows.
    pub fn rows(&self) -> &[Row]
        ensures rows { result.now ≡ standing self.now }
        ensures few { length result.now ≡ min self.now.count 256 }
    {
        self.kept.rows()
    }

    // The corrected record that left as number `i`, counted from 0; none if fewer left, and from 256 on.
    pub fn row(&self, i: usize) -> Option<Row>
        ensures row { result ≡ slice_get (standing self.now) i }
        ensures some { is_some result ≡ nat_lt i (min self.now.count 256) }
    {
        self.kept.row(i)
    }

    // Notes the record if it was corrected.
    fn leave(&mut self, key: LengthNumber, val: Length)
        ensures { self.new ≡ noted self.old key val }
    {
        if val.changed() {
            self.kept.note(Row { key, val });
        }
    }
}

// The lifecycle of the length cache. Nothing is pinned, a trim takes the picture away, and both hooks note a
// corrected record.
#[derive(Clone, Copy)]
pub struct WriteBack;

impl Lifecycle<LengthNumber, Length> for WriteBack {
    type State = WriteBackBuffer;

    ghost life = { λ _. write_back };

    fn is_pinned(&self, _key: &LengthNumber, _val: &Length) -> bool {
        false
    }

    fn before_evict(
        &self,
        _state: &mut WriteBackBuffer,
        _key: &LengthNumber,
        val: Length,
    ) -> Length {
        val.trimmed()
    }

    fn on_evict_hot(&self, state: &mut WriteBackBuffer, key: LengthNumber, val: Length) {
        state.leave(key, val);
    }

    fn on_evict_cold(&self, state: &mut WriteBackBuffer, key: LengthNumber, val: Length) {
        state.leave(key, val);
    }
}
