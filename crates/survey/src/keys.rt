ghost use Rattle.std.specs.Prelude.{◌==◌};
ghost use Rattle.std.specs.Str.{bytes_eq};
ghost use Rattle.std.proofs.Common.{rules};
ghost use Rattle.std.proofs.lemmas.Slice.Eq.{bytes_eq-Decides};
ghost use Rattle.survey.specs.Codes.{text_of};
ghost use Rattle.survey.specs.Hashes.{multiplied, fnv1a};

use crate::code::Code;
use interface::Key;

// The number of a pipe length, the key of the length cache.
#[derive(Clone, Copy, PartialEq, Eq, Debug)]
pub struct LengthNumber(pub u32);

impl Key for LengthNumber {
    ghost same = { λ x y. (x.0 == y.0) };

    ghost code = { λ x. multiplied x.0 };

    ghost reflexive = { Prim.search rules };

    ghost symmetric = { Prim.search rules };

    ghost transitive = { Prim.search rules };

    ghost hashes = { Prim.search rules };

    fn equal(&self, other: &LengthNumber) -> bool {
        self == other
    }

    fn hash(&self) -> u64 {
        (self.0 as u64).wrapping_mul(0x9E37_79B9_7F4A_7C15)
    }
}

// The text of an observation code is the key of the code cache. The hash is FNV-1a of 64 bits.
impl Key for Code {
    ghost same = { λ x y. bytes_eq (text_of x) (text_of y) };

    ghost code = { λ x. fnv1a (text_of x) };

    ghost reflexive = { Prim.search (rules, bytes_eq-Decides) };

    ghost symmetric = { Prim.search (rules, bytes_eq-Decides) };

    ghost transitive = { Prim.search (rules, bytes_eq-Decides) };

    ghost hashes = { Prim.search (rules, bytes_eq-Decides) };

    fn equal(&self, other: &Code) -> bool {
        self.as_bytes() == other.as_bytes()
    }

    fn hash(&self) -> u64 {
        self.as_bytes()
            .iter()
            .fold(0xcbf2_9ce4_8422_2325, |hash, byte| {
                (hash ^ *byte as u64).wrapping_mul(0x100_0000_01b3)
            })
    }
}
