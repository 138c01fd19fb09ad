ghost use Rattle.std.specs.Prelude.{Some};
ghost use Rattle.interface.specs.Refusals.{words};

use std::error::Error;
use std::fmt;

// Why a call was refused. A refusal concerns one call and one record; the cache goes on.
#[derive(Clone, Copy, PartialEq, Eq, Debug)]
pub enum Refusal {
    // the capacity is above 2^53
    CapacityTooLarge = 1,
    // more than 1,048,576 items are expected
    TooManyItems = 2,
    // a share that is no number, or not within 0 to 1
    AllocationOutOfRange = 3,
    // the key is not known and no slot is free
    NoFreeSlot = 4,
    // the record of a replace weighs more than the hot target, trimmed as it is
    Overweight = 5,
    // there is no resident to replace
    NotResident = 6,
    // all ticket numbers have been given out
    TicketsUsedUp = 7,
    // the placeholder of the ticket is gone
    PlaceholderGone = 8,
    // the edit is open on nothing
    NothingOpen = 9,
    // the ghost bound would exceed 2^53
    GhostBoundTooLarge = 10,
}

// Why the call was refused, in words.
impl fmt::Display for Refusal {
    ghost output = { λ r. Some (words r) };

    fn fmt<W: fmt::Write>(&self, f: &mut fmt::Formatter<W>) -> fmt::Result {
        f.write_str(match self {
            Refusal::CapacityTooLarge => "the capacity is above 9007199254740992",
            Refusal::TooManyItems => "there are more than 1048576 items",
            Refusal::AllocationOutOfRange => "an allocation is not within 0 to 1",
            Refusal::NoFreeSlot => "no slot is free",
            Refusal::Overweight => "the record is above the hot target",
            Refusal::NotResident => "there is no such record",
            Refusal::TicketsUsedUp => "all ticket numbers are used up",
            Refusal::PlaceholderGone => "the placeholder is gone",
            Refusal::NothingOpen => "no record is open",
            Refusal::GhostBoundTooLarge => "the ghost bound would be above 9007199254740992",
        })
    }
}

impl Error for Refusal {}
