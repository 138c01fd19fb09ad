ghost use Rattle.std.specs.Prelude.{◌≡◌, Some};
ghost use Rattle.survey_text.specs.Fields.{name as name_of, limit as limit_of};
ghost use Rattle.survey_text.specs.Faults.{words};
ghost use Rattle.survey_text.specs.declared.faults.Fault.TheVariants.{Refused};

use interface::refusal::Refusal;
use std::error::Error;
use std::fmt;
use survey::length::Length;

// A value of a line.
#[derive(Clone, Copy, PartialEq, Eq, Debug)]
pub enum Field {
    Capacity,
    Items,
    Hot,
    Ghosts,
    Number,
    Place,
    Observations,
    Step,
    Mark,
}

impl Field {
    // The value, as a reader of the format knows it. What a `box` line gives goes by the name that stands
    // before it.
    pub fn name(self) -> &'static str
        ensures { result.now ≡ name_of self }
    {
        match self {
            Field::Capacity => "capacity=",
            Field::Items => "items=",
            Field::Hot => "hot=",
            Field::Ghosts => "ghost=",
            Field::Number => "the length's number",
            Field::Place => "the file place",
            Field::Observations => "the number of observations",
            Field::Step => "the picture step",
            Field::Mark => "the word changed or unchanged",
        }
    }

    // The largest that the value may be, where it is a whole number.
    pub fn limit(self) -> u64
        ensures { result ≡ limit_of self }
    {
        match self {
            Field::Number => u64::from(u32::MAX),
            Field::Observations => u64::from(Length::MAX_OBSERVATIONS),
            Field::Step => u64::from(Length::MAX_STEP),
            Field::Capacity
            | Field::Items
            | Field::Hot
            | Field::Ghosts
            | Field::Place
            | Field::Mark => u64::MAX,
        }
    }
}

impl fmt::Display for Field {
    ghost output = { λ field. Some (name_of field) };

    fn fmt<W: fmt::Write>(&self, f: &mut fmt::Formatter<W>) -> fmt::Result {
        f.write_str(self.name())
    }
}

// Why a line is of no use.
#[derive(Clone, Copy, PartialEq, Eq, Debug)]
pub enum Fault {
    // it begins with another word than `box` or `length`
    Unknown,
    // it ends before this value
    Missing(Field),
    // the value is no whole number
    NotANumber(Field),
    // the value is above its range
    AboveRange(Field),
    // the value is no decimal number of at most 15 digits
    NotAShare(Field),
    // the value of a `box` line does not stand behind its name
    NotNamed(Field),
    // the last word is neither `changed` nor `unchanged`
    NotAMark,
    // there are more words than the statement has
    Surplus,
    // it is longer than a line may be
    Overlong,
    // a box is set up already
    SecondBox,
    // the box's settings are refused
    Refused(Refusal),
}

impl fmt::Display for Fault {
    ghost output = { λ fault. Some (words fault) };

    fn fmt<W: fmt::Write>(&self, f: &mut fmt::Formatter<W>) -> fmt::Result {
        match self {
            Fault::Unknown => write!(f, "the first word is neither box nor length"),
            Fault::Missing(field) => write!(f, "{field} is missing"),
            Fault::NotANumber(field) => write!(f, "{field} is not a whole number"),
            Fault::AboveRange(field) => write!(f, "{field} is above {}", field.limit()),
            Fault::NotAShare(field) => write!(
                f,
                "{field} is not a decimal number of at most 15 digits"
            ),
            Fault::NotNamed(field) => write!(f, "{field} is not where it belongs"),
            Fault::NotAMark => write!(f, "the last word is neither changed nor unchanged"),
            Fault::Surplus => write!(f, "there are more words than belong on the line"),
            Fault::Overlong => write!(f, "the line is longer than 1024 bytes"),
            Fault::SecondBox => write!(f, "the box is set up already"),
            Fault::Refused(why) => write!(
                f,
                "the box is refused with number {}, {why}",
                why.number()
            ),
        }
    }
}

impl Error for Fault {}

impl From<Refusal> for Fault {
    ghost from_gives = { λ why fault. fault ≡ Refused why };

    fn from(why: Refusal) -> Fault {
        Fault::Refused(why)
    }
}
