ghost use Rattle.std.specs.Prelude.{◌≡◌, ℕ, List, Some, None, Ok, Err};
ghost use Rattle.std.specs.Option.{option_map};
ghost use Rattle.settings.specs.Rules.{set_up};
ghost use Rattle.settings.specs.Standing.{limits};
ghost use Rattle.survey.specs.FirstRows.{none};
ghost use Rattle.survey.specs.WritingBack.{noted, Gathers};
ghost use Rattle.inspection.specs.Sessions.{state, inspected, leaving, measured, set_up_box, followed, closed, settled, reported, SameButRows};
ghost use Rattle.inspection.specs.Printed.{report_words};
ghost use Rattle.inspection.specs.Sums.{none_yet};
ghost use Rattle.inspection.specs.Runs.{Reading, Accounts};

use crate::refused::{RefusedLine, RefusedLines};
use crate::totals::Totals;
use crate::verdicts::{Inspected, Verdict, inspect};
use interface::Lifecycle;
use settings::Settings;
use std::fmt;
use survey::keys::LengthNumber;
use survey::length::Length;
use survey::write_back::{WriteBack, WriteBackBuffer};
use survey_text::faults::Fault;
use survey_text::statements::{BoxSettings, Statement};

mod reading;

// What there is to say of a line.
#[derive(Clone, Copy, PartialEq, Eq, Debug)]
pub enum Report {
    // the box is set up
    BoxSetUp(Settings),
    // a pipe length, and what the box would do with it
    Measured(LengthNumber, Length, Inspected),
}

impl fmt::Display for Report {
    ghost output = { λ r. Some (report_words r) };

    fn fmt<W: fmt::Write>(&self, f: &mut fmt::Formatter<W>) -> fmt::Result {
        match self {
            Report::BoxSetUp(settings) => write!(
                f,
                "box of capacity {}: hot target {}, ghost bound {}",
                settings.capacity(),
                settings.hot_target(),
                settings.ghost_bound()
            ),
            Report::Measured(key, length, inspected) => {
                let mark = if length.changed() { ", changed" } else { "" };
                write!(f, "length {}: {inspected}{mark}", key.0)
            }
        }
    }
}

// An inspection under way: the box, the totals, the lines that were refused, and the corrected records that
// are to be written back.
#[derive(Drop)]
pub struct Session {
    settings: Option<Settings>,
    totals: Totals,
    refused: RefusedLines,
    rows: WriteBackBuffer,
}

// Hands a record to write-back, trimmed first where the box would trim it: by the hot hook if the box lets it
// in, by the cold hook if not.
fn leave(rows: &mut WriteBackBuffer, key: LengthNumber, length: Length, verdict: Verdict)
    ensures { rows.new ≡ noted rows.old key (leaving verdict length) }
{
    match verdict {
        Verdict::Unjudged => WriteBack.on_evict_cold(rows, key, length),
        Verdict::Fits => WriteBack.on_evict_hot(rows, key, length),
        Verdict::FitsTrimmed => {
            let lighter = WriteBack.before_evict(rows, &key, length);
            WriteBack.on_evict_hot(rows, key, lighter);
        }
        Verdict::TooHeavy => {
            let lighter = WriteBack.before_evict(rows, &key, length);
            WriteBack.on_evict_cold(rows, key, lighter);
        }
    }
}

impl Session {
    // A session without a box. Whatever is read from here on, the totals add up, and every corrected pipe
    // length is handed to write-back, once.
    pub fn new() -> Session
        ensures without { (state result).box ≡ None }
        ensures totals { (state result).totals ≡ none_yet }
        ensures refused { (state result).refused ≡ none }
        ensures rows { (state result).rows ≡ none }
        ensures accounts { (rs : List Reading) → Accounts (state result) rs }
    {
        Session {
            totals: Totals::default(),
            refused: RefusedLines::filled(RefusedLine::NONE),
            rows: WriteBackBuffer::new(),
            settings: None,
        }
    }

    // Goes on with line number `line`, and says what there is to say of it, or why the line is refused.
    pub fn follow(
        &mut self,
        line: u64,
        read: Result<Option<Statement>, Fault>,
    ) -> Result<Option<Report>, Fault>
        ensures state { state self.new ≡ (followed (state self.old) line read).0 }
        ensures report { reported result ≡ (followed (state self.old) line read).1 }
    {
        let report = self.obey(read);
        if let Err(fault) = report {
            self.refused.note(RefusedLine { line, fault });
        }
        report
    }

    // Does what a line says.
    fn obey(&mut self, read: Result<Option<Statement>, Fault>) -> Result<Option<Report>, Fault>
        ensures { (line : ℕ) → followed (state self.old) line read ≡ closed line (state self.new) (reported result) }
    {
        match read? {
            None => Ok(None),
            Some(Statement::Setup(wanted)) => {
                let settings = self.set_up(wanted)?;
                Ok(Some(Report::BoxSetUp(settings)))
            }
            Some(Statement::Record(key, length)) => {
                let inspected = self.inspect(key, length);
                Ok(Some(Report::Measured(key, length, inspected)))
            }
        }
    }

    // Sets up the box, unless one is.
    fn set_up(&mut self, wanted: BoxSettings) -> Result<Settings, Fault>
        ensures { (line : ℕ) → set_up_box (state self.old) line (state self.old).box (set_up wanted.capacity wanted.items wanted.hot wanted.ghosts) ≡ closed line (state self.new) (settled result) }
    {
        if self.settings.is_some() {
            return Err(Fault::SecondBox);
        }
        let settings = Settings::new(wanted.capacity, wanted.items, wanted.hot, wanted.ghosts)?;
        self.settings = Some(settings);
        Ok(settings)
    }

    // Inspects a pipe length, and lets it leave.
    fn inspect(&mut self, key: LengthNumber, length: Length) -> Inspected
        ensures state { state self.new ≡ measured (state self.old) key length }
        ensures value { result ≡ inspected (state self.old).box length }
    {
        let inspected = inspect(self.hot_target(), key, length);
        self.totals.add(inspected, length.changed());
        leave(&mut self.rows, key, length, inspected.verdict);
        inspected
    }

    // The hot target of the box, if one is set up.
    fn hot_target(&self) -> Option<u64>
        ensures { result ≡ option_map (λ b. b.target) (option_map limits self.now.settings) }
    {
        self.settings.map(|settings| settings.hot_target())
    }

    // Begins with new rows, once those that stand are written.
    pub fn next_rows(&mut self)
        ensures others { SameButRows (state self.old) (state self.new) }
        ensures rows { (state self.new).rows ≡ none }
        ensures gathers { Gathers (state self.new).rows }
    {
        self.rows = WriteBackBuffer::new();
    }
}
