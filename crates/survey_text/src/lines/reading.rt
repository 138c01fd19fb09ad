ghost use Rattle.std.specs.Prelude.{◌≡◌};
ghost use Rattle.survey_text.specs.Lines.{kept};
ghost use Rattle.survey_text.specs.Statements.{answered, statement};

use super::Line;
use crate::faults::Fault;
use crate::statements::{Statement, read_line};

impl Line {
    // What the line says, if anything, or why it is of no use.
    pub fn read(&self) -> Result<Option<Statement>, Fault>
        ensures { answered result ≡ statement self.now.overlong (kept self.now) }
    {
        read_line(&self.bytes[..self.len], self.overlong)
    }
}
