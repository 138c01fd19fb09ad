ghost use Rattle.std.specs.Prelude.{◌≡◌, false, is_some, IfSome};
ghost use Rattle.survey.specs.Lengths.{allowed, Reads};

use crate::length::Length;

impl Length {
    // The most observations that a pipe length may have.
    pub const MAX_OBSERVATIONS: u16 = 10_000;

    // The last of the sixteen picture steps.
    pub const MAX_STEP: u8 = 15;

    // A record of these values; none where a pipe length can't have them.
    pub fn new(place: u64, observations: u32, step: u32, changed: bool) -> Option<Length>
        ensures made { is_some result ≡ allowed observations step }
        ensures values { IfSome result (λ l. Reads l place observations step changed) }
    {
        if observations > Self::MAX_OBSERVATIONS as u32 || step > Self::MAX_STEP as u32 {
            return None;
        }
        Some(Length {
            place,
            observations: observations as u16,
            step: step as u8,
            changed,
        })
    }

    // A record of no pipe length, which fills a row that holds nothing yet.
    pub(crate) fn blank() -> Length
        ensures { Reads result 0 0 0 false }
    {
        Length {
            place: 0,
            observations: 0,
            step: 0,
            changed: false,
        }
    }

    // Where the pages of the pipe length stand in the survey file.
    pub fn place(&self) -> u64
        ensures { result ≡ self.now.place }
    {
        self.place
    }

    // How many observations there are, deleted ones not counted.
    pub fn observations(&self) -> u16
        ensures { result ≡ self.now.observations }
    {
        self.observations
    }

    // How far the picture is enlarged; at 0 there is none.
    pub fn step(&self) -> u8
        ensures { result ≡ self.now.step }
    {
        self.step
    }

    // Was it corrected since it was read?
    pub fn changed(&self) -> bool
        ensures { result ≡ self.now.changed }
    {
        self.changed
    }
}
