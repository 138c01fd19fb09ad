ghost use Rattle.std.specs.Prelude.{Some};
ghost use Rattle.inspection.specs.Printed.{refused_line_words};

use std::fmt;
use survey::first_rows::FirstRows;
use survey_text::faults::Fault;

// How many refused lines are kept.
pub const KEPT_LINES: usize = 32;

// A line that was refused, by its number, and why.
#[derive(Clone, Copy, PartialEq, Eq, Debug)]
pub struct RefusedLine {
    pub line: u64,
    pub fault: Fault,
}

impl RefusedLine {
    // What stands in a place where no line is kept.
    pub(crate) const NONE: RefusedLine = RefusedLine {
        line: 0,
        fault: Fault::Unknown,
    };
}

impl fmt::Display for RefusedLine {
    ghost output = { λ r. Some (refused_line_words r) };

    fn fmt<W: fmt::Write>(&self, f: &mut fmt::Formatter<W>) -> fmt::Result {
        write!(f, "line {}: {}", self.line, self.fault)
    }
}

// The lines that were refused: the first 32 of them in their order, and how many there were.
pub(crate) type RefusedLines = FirstRows<RefusedLine, KEPT_LINES>;
