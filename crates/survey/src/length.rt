ghost use Rattle.std.specs.Prelude.{◌≤◌};

mod correction;
mod reading;

// What the van knows of one pipe length: where its pages stand in the survey file, how many observations
// they have (deleted ones not counted), how far its picture is enlarged, and whether a coder has corrected it
// since it was read.
#[derive(Clone, Copy, PartialEq, Eq, Debug)]
pub struct Length {
    place: u64,
    observations: u16,
    step: u8,
    changed: bool,
    ghost few: { observations ≤ 10000 },
    ghost low: { step ≤ 15 },
}
