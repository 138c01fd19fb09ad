ghost use Rattle.std.specs.Prelude.{◌≡◌, ◌-◌, ◌≤◌, true, is_some, IfSome, nat_le, nat_lt};
ghost use Rattle.survey.specs.Lengths.{Reads, trim};
ghost use Rattle.survey.specs.Weights.{length_weight};

use crate::length::Length;

// A correction makes a record that is marked as changed.
impl Length {
    // The record with this many observations; none above 10,000.
    pub fn with_observations(self, observations: u32) -> Option<Length>
        ensures made { is_some result ≡ nat_le observations 10000 }
        ensures values { IfSome result (λ l. Reads l self.place observations self.step true) }
    {
        Length::new(self.place, observations, self.step as u32, true)
    }

    // The record with one observation struck out; none where there is none.
    pub fn strike(mut self) -> Option<Length>
        ensures made { is_some result ≡ nat_lt 0 self.observations }
        ensures values { IfSome result (λ l. Reads l self.place (self.observations - 1) self.step true) }
    {
        self.observations = self.observations.checked_sub(1)?;
        self.changed = true;
        Some(self)
    }

    // The record with the picture at this step; none above 15.
    pub fn with_step(self, step: u32) -> Option<Length>
        ensures made { is_some result ≡ nat_le step 15 }
        ensures values { IfSome result (λ l. Reads l self.place self.observations step true) }
    {
        Length::new(self.place, self.observations as u32, step, true)
    }

    // The record without its picture; a trim is no correction, so the mark stays as it is.
    pub fn trimmed(mut self) -> Length
        ensures value { result ≡ trim self }
        ensures lighter { length_weight result ≤ length_weight self }
    {
        self.step = 0;
        self
    }
}
