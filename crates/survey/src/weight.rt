ghost use Rattle.std.specs.Prelude.{◌≡◌, ◌<◌, ◌≤◌};
ghost use Rattle.survey.specs.Weights.{picture_weight, length_weight};

use crate::code::Code;
use crate::keys::LengthNumber;
use crate::length::Length;
use interface::Weighter;

// What a picture weighs at each step.
const PICTURE_WEIGHTS: [u32; 16] = [
    0, 512, 1_024, 2_048, 4_096, 8_192, 16_384, 32_768, 65_536, 131_072, 262_144, 524_288,
    1_048_576, 2_097_152, 4_194_304, 8_388_608,
];

// The weight of a picture, by the table.
fn picture(step: u8) -> u32
    requires { step ≤ 15 }
    ensures rule { result ≡ picture_weight step }
    ensures small { result ≤ 8388608 }
{
    PICTURE_WEIGHTS[step as usize]
}

// The weigher of the length cache: 64, and 32 for each observation, and the picture.
#[derive(Clone, Copy)]
pub struct LengthWeighter;

impl Weighter<LengthNumber, Length> for LengthWeighter {
    ghost weight = { λ _ _ l. length_weight l };

    fn weigh(&self, _key: &LengthNumber, val: &Length) -> u32 {
        64 + 32 * val.observations() as u32 + picture(val.step())
    }
}

// The weigher of the code cache: every wording weighs 1.
#[derive(Clone, Copy)]
pub struct CodeWeighter;

impl Weighter<Code, u32> for CodeWeighter {
    ghost weight = { λ _ _ _. 1 };

    fn weigh(&self, _key: &Code, _val: &u32) -> u32 {
        1
    }
}
