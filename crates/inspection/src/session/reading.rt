ghost use Rattle.std.specs.Prelude.{◌≡◌, length, is_some, min, nat_lt};
ghost use Rattle.std.specs.List.{slice_get};
ghost use Rattle.std.specs.Option.{option_map};
ghost use Rattle.survey.specs.WritingBack.{standing as standing_rows};
ghost use Rattle.inspection.specs.Refused.{standing as standing_lines};
ghost use Rattle.inspection.specs.Sessions.{state};

use super::Session;
use crate::refused::RefusedLine;
use crate::totals::Totals;
use survey::write_back::Row;

impl Session {
    // The box's capacity, if one is set up.
    pub fn capacity(&self) -> Option<u64>
        ensures { result ≡ option_map (λ b. b.capacity) (state self.now).box }
    {
        self.settings.map(|settings| settings.capacity())
    }

    // What came so far.
    pub fn totals(&self) -> Totals
        ensures { result ≡ (state self.now).totals }
    {
        self.totals
    }

    // How many lines were refused, up to 2^64 - 1.
    pub fn refused_count(&self) -> u64
        ensures { result ≡ (state self.now).refused.count }
    {
        self.refused.count()
    }

    // The lines that were refused, the first 32 of them in their order.
    pub fn refused_lines(&self) -> &[RefusedLine]
        ensures lines { result.now ≡ standing_lines (state self.now).refused }
        ensures few { length result.now ≡ min (state self.now).refused.count 32 }
    {
        self.refused.rows()
    }

    // The refused line number `i`, counted from 0; none if fewer were refused, and from 32 on.
    pub fn refused_line(&self, i: usize) -> Option<RefusedLine>
        ensures line { result ≡ slice_get (standing_lines (state self.now).refused) i }
        ensures some { is_some result ≡ nat_lt i (min (state self.now).refused.count 32) }
    {
        self.refused.row(i)
    }

    // How many corrected records there are to write back, up to 2^64 - 1. Those past 256 are in no row.
    pub fn row_count(&self) -> u64
        ensures { result ≡ (state self.now).rows.count }
    {
        self.rows.count()
    }

    // The corrected records to write back, the first 256 of them in their order.
    pub fn rows(&self) -> &[Row]
        ensures rows { result.now ≡ standing_rows (state self.now).rows }
        ensures few { length result.now ≡ min (state self.now).rows.count 256 }
    {
        self.rows.rows()
    }

    // The corrected record number `i`, counted from 0; none if there are fewer, and from 256 on.
    pub fn row(&self, i: usize) -> Option<Row>
        ensures row { result ≡ slice_get (standing_rows (state self.now).rows) i }
        ensures some { is_some result ≡ nat_lt i (min (state self.now).rows.count 256) }
    {
        self.rows.row(i)
    }
}
