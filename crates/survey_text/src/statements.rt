ghost use Rattle.std.specs.Prelude.{◌≡◌, ◌≤◌, ◌==◌, true, false, length, Ok, Err, IfOk, IfErr, MatchResult};
ghost use Rattle.survey_text.specs.Fields.{limit};
ghost use Rattle.survey_text.specs.Digits.{number as number_of};
ghost use Rattle.survey_text.specs.Words.{first_word, after_word};
ghost use Rattle.survey_text.specs.Statements.{answered, told, unreadable, counted, named as named_of, numbered, quantity as quantity_of, portion as portion_of, marked as mark_of, ended, box_line, length_line, stated as stated_by, spoken, statement as statement_of};

use crate::digits::{Unreadable, number, share};
use crate::faults::{Fault, Field};
use crate::words::{Words, content};
use survey::keys::LengthNumber;
use survey::length::Length;

// What a `box` line gives: the box's capacity, the items to expect, and the allocations of the hot residents
// and of the ghosts.
#[derive(Clone, Copy, PartialEq, Debug)]
pub struct BoxSettings {
    pub capacity: u64,
    pub items: u64,
    pub hot: f64,
    pub ghosts: f64,
}

// What a line says.
#[derive(Clone, Copy, PartialEq, Debug)]
pub enum Statement {
    // the box
    Setup(BoxSettings),
    // a pipe length
    Record(LengthNumber, Length),
}

impl Unreadable {
    // The fault of a value of this field that is unreadable so.
    fn in_field(self, field: Field) -> Fault
        ensures { result ≡ unreadable field self }
    {
        match self {
            Unreadable::NotDigits => Fault::NotANumber(field),
            Unreadable::TooLarge => Fault::AboveRange(field),
        }
    }
}

// The whole number that the word writes in this field.
fn whole(field: Field, word: &[u8]) -> Result<u64, Fault>
    ensures value { result ≡ counted field (number_of (limit field) word.now) }
    ensures within { IfOk result (λ n. n ≤ limit field) }
{
    number(word, field.limit()).map_err(|why| why.in_field(field))
}

// The values that the words of a statement give, one after the other. Each says what it leaves of the text: that relates two
// values, so it is a clause.
impl<'a> Words<'a> {
    // The next word, which this field needs.
    fn word(&mut self, field: Field) -> Result<&'a [u8], Fault>
        ensures found { IfOk result (λ w. (w.now ≡ first_word self.old.rest.now) × (length w.now == 0 ≡ false)) }
        ensures missing { IfErr result (λ e. (e ≡ Fault.Missing field) × (length (first_word self.old.rest.now) == 0 ≡ true)) }
        ensures rest { self.new.rest.now ≡ after_word self.old.rest.now }
    {
        self.next().ok_or(Fault::Missing(field))
    }

    // What stands behind the field's name in the next word.
    fn named(&mut self, field: Field) -> Result<&'a [u8], Fault>
        ensures value { MatchResult result (λ v. named_of field (first_word self.old.rest.now) ≡ Ok v.now) (λ e. named_of field (first_word self.old.rest.now) ≡ Err e) }
        ensures rest { self.new.rest.now ≡ after_word self.old.rest.now }
    {
        let word = self.word(field)?;
        word.strip_prefix(field.name().as_bytes())
            .ok_or(Fault::NotNamed(field))
    }

    // A whole number.
    fn numeral(&mut self, field: Field) -> Result<u64, Fault>
        ensures value { result ≡ numbered field (first_word self.old.rest.now) }
        ensures within { IfOk result (λ n. n ≤ limit field) }
        ensures rest { self.new.rest.now ≡ after_word self.old.rest.now }
    {
        let word = self.word(field)?;
        whole(field, word)
    }

    // A whole number behind its name.
    fn quantity(&mut self, field: Field) -> Result<u64, Fault>
        ensures value { result ≡ quantity_of field (first_word self.old.rest.now) }
        ensures rest { self.new.rest.now ≡ after_word self.old.rest.now }
    {
        let value = self.named(field)?;
        whole(field, value)
    }

    // A share behind its name.
    fn portion(&mut self, field: Field) -> Result<f64, Fault>
        ensures value { result ≡ portion_of field (first_word self.old.rest.now) }
        ensures rest { self.new.rest.now ≡ after_word self.old.rest.now }
    {
        let value = self.named(field)?;
        share(value).ok_or(Fault::NotAShare(field))
    }

    // Was the record corrected?
    fn mark(&mut self) -> Result<bool, Fault>
        ensures value { result ≡ mark_of (first_word self.old.rest.now) }
        ensures rest { self.new.rest.now ≡ after_word self.old.rest.now }
    {
        match self.word(Field::Mark)? {
            b"changed" => Ok(true),
            b"unchanged" => Ok(false),
            _ => Err(Fault::NotAMark),
        }
    }

    // Nothing more may stand on the line.
    fn end(&mut self) -> Result<(), Fault>
        ensures { result ≡ ended self.old.rest.now tt }
    {
        match self.next() {
            None => Ok(()),
            Some(_) => Err(Fault::Surplus),
        }
    }
}

// What a `box` line says, by its words from the second on.
fn setup(mut words: Words) -> Result<Statement, Fault>
    ensures { told result ≡ box_line words.entry.rest.now }
{
    let settings = BoxSettings {
        capacity: words.quantity(Field::Capacity)?,
        items: words.quantity(Field::Items)?,
        hot: words.portion(Field::Hot)?,
        ghosts: words.portion(Field::Ghosts)?,
    };
    words.end()?;
    Ok(Statement::Setup(settings))
}

// What a `length` line says, by its words from the second on.
fn record(mut words: Words) -> Result<Statement, Fault>
    ensures { told result ≡ length_line words.entry.rest.now }
{
    let key = words.numeral(Field::Number)?;
    let place = words.numeral(Field::Place)?;
    let observations = words.numeral(Field::Observations)?;
    let step = words.numeral(Field::Step)?;
    let changed = words.mark()?;
    words.end()?;
    let length = Length::new(place, observations as u32, step as u32, changed).unwrap();
    Ok(Statement::Record(LengthNumber(key as u32), length))
}

// What a line says, by its first word and those that follow.
fn stated(first: &[u8], words: Words) -> Result<Statement, Fault>
    ensures { told result ≡ stated_by first.now words.entry.rest.now }
{
    match first {
        b"box" => setup(words),
        b"length" => record(words),
        _ => Err(Fault::Unknown),
    }
}

// What a line without its comment says, if anything.
fn said(text: &[u8]) -> Result<Option<Statement>, Fault>
    ensures { answered result ≡ spoken text.now }
{
    let mut words = Words::of(text);
    match words.next() {
        None => Ok(None),
        Some(first) => stated(first, words).map(Some),
    }
}

// What the line says, if anything. `overlong` says that it is only the beginning of a line.
pub(crate) fn read_line(line: &[u8], overlong: bool) -> Result<Option<Statement>, Fault>
    ensures { answered result ≡ statement_of overlong line.now }
{
    let text = content(line);
    if overlong && text.len() == line.len() {
        return Err(Fault::Overlong);
    }
    said(text)
}
