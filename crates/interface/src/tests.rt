ghost use Rattle.std.specs.Prelude.{◌≡◌, ℕ, ◌/◌, ◌%◌, true, ◌==◌};
ghost use Rattle.interface.specs.Meaning.{Life};
ghost use Rattle.std.proofs.Common.{rules};

use crate::refusal::Refusal;
use crate::{Hold, Key, Lifecycle, Unhooked};

// keys that are equal where they have the same remainder by ten
#[derive(Clone, Copy)]
struct Digit(u8);

impl Key for Digit {
    ghost same = { λ x y. (x.0 % 10 == y.0 % 10) };

    ghost code = { λ x. x.0 % 10 };

    ghost reflexive = { Prim.search rules };

    ghost symmetric = { Prim.search rules };

    ghost transitive = { Prim.search rules };

    ghost hashes = { Prim.search rules };

    fn equal(&self, other: &Digit) -> bool {
        self.0 % 10 == other.0 % 10
    }

    fn hash(&self) -> u64 {
        (self.0 % 10) as u64
    }
}

// keeps the last record of the hot hook or key of the cold one, trims to half, and pins odd records
#[derive(Clone, Copy)]
struct Odd;

impl Lifecycle<Digit, u8> for Odd {
    type State = u8;

    ghost life = { λ _. record { pins = λ _ v. (v % 2 == 1); trim = λ s _ v. (s, v / 2); hot = λ _ _ v. v; cold = λ _ k _. k.0 } };

    fn is_pinned(&self, _key: &Digit, val: &u8) -> bool {
        *val % 2 == 1
    }

    fn before_evict(&self, _state: &mut u8, _key: &Digit, val: u8) -> u8 {
        val / 2
    }

    fn on_evict_hot(&self, state: &mut u8, _key: Digit, val: u8) {
        *state = val;
    }

    fn on_evict_cold(&self, state: &mut u8, key: Digit, _val: u8) {
        *state = key.0;
    }
}

#[test]
fn hold_pins_one_key_more(rt: HostRuntime) {
    let odd = Hold {
        key: Digit(3),
        inner: Odd,
    };
    assert!(rt; odd.is_pinned(&Digit(13), &4), "an equal key");
    assert!(rt; odd.is_pinned(&Digit(4), &5), "pinned below");
    assert!(rt; !odd.is_pinned(&Digit(4), &4));
    let two = Hold {
        key: Digit(3),
        inner: Hold {
            key: Digit(5),
            inner: Unhooked,
        },
    };
    assert!(rt;
        two.is_pinned(&Digit(23), &4)
            && two.is_pinned(&Digit(5), &4)
            && !two.is_pinned(&Digit(6), &4)
    );
}

#[test]
fn hold_passes_the_rest_on(rt: HostRuntime) {
    let odd = Hold {
        key: Digit(3),
        inner: Odd,
    };
    let mut state = 0;
    assert_eq!(rt; odd.before_evict(&mut state, &Digit(1), 8), 4);
    assert_eq!(rt; state, 0);
    odd.on_evict_hot(&mut state, Digit(1), 9);
    assert_eq!(rt; state, 9);
    odd.on_evict_cold(&mut state, Digit(7), 8);
    assert_eq!(rt; state, 7);
}

#[test]
fn unhooked_does_nothing(rt: HostRuntime) {
    assert!(rt; !Unhooked.is_pinned(&Digit(1), &1u8));
    assert_eq!(rt; Unhooked.before_evict(&mut (), &Digit(1), 8u8), 8);
}

#[test]
fn refusals_have_their_numbers(rt: HostRuntime) {
    assert_eq!(rt; Refusal::CapacityTooLarge.number(), 1);
    assert_eq!(rt; Refusal::NoFreeSlot.number(), 4);
    assert_eq!(rt; Refusal::GhostBoundTooLarge.number(), 10);
}
