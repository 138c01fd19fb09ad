ghost use Rattle.std.specs.Prelude.{◌≡◌};
ghost use Rattle.interface.specs.Refusals.{number as numbered};

use crate::refusal::Refusal;

impl Refusal {
    // The number under which the refusal is documented.
    pub fn number(self) -> u8
        ensures { result ≡ numbered self }
    {
        self as u8
    }
}
