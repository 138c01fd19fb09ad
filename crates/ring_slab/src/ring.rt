// Rings of places: links that agree both ways.
ghost use Rattle.std.specs.Prelude.{◌≡◌, ℕ, List, [], ◌∷◌, ◌++◌};
ghost use Rattle.std.specs.Option.{unwrap_or};
ghost use Rattle.ring_slab.specs.Places.{count, head_of};
ghost use Rattle.ring_slab.specs.Slots.{buckets, chains, nexts, prevs, hashes, items, Columns};
ghost use Rattle.ring_slab.specs.Rings.{Ring, KeptOff, Linked, Linkable};

use crate::field::{next_of, prev_of};
use crate::slots::Slot;
use crate::write::{set_next, set_prev};

// Puts `at` into the ring that begins at `head`, as its last place; alone where there is none. Answers the head of
// the ring.
pub(crate) fn link<T: Copy>(slots: &mut [Slot<T>], at: u32, head: Option<u32>) -> u32
    requires { Linkable slots.old at head }
    ensures ring { (xs : List ℕ) → Ring slots.old xs → head ≡ head_of xs → count at xs ≡ 0 → Ring slots.new (xs ++ at ∷ []) × KeptOff (xs ++ at ∷ []) slots.old slots.new }
    ensures head { result ≡ unwrap_or head at }
    ensures others { Columns slots.new (buckets slots.old) (chains slots.old) (nexts slots.new) (prevs slots.new) (hashes slots.old) (items slots.old) }
{
    match head {
        None => {
            set_next(slots, at, at);
            set_prev(slots, at, at);
            at
        }
        Some(h) => {
            let last = prev_of(slots, h);
            set_next(slots, last, at);
            set_prev(slots, h, at);
            set_next(slots, at, h);
            set_prev(slots, at, last);
            h
        }
    }
}

// Takes `at` out of its ring, and answers the place after it, if there is another.
pub(crate) fn unlink<T: Copy>(slots: &mut [Slot<T>], at: u32) -> Option<u32>
    requires { Linked slots.old at }
    ensures ring { (a b : List ℕ) → Ring slots.old (a ++ at ∷ b) → Ring slots.new (b ++ a) × (result ≡ head_of (b ++ a)) × KeptOff (a ++ at ∷ b) slots.old slots.new }
    ensures others { Columns slots.new (buckets slots.old) (chains slots.old) (nexts slots.new) (prevs slots.new) (hashes slots.old) (items slots.old) }
{
    let prev = prev_of(slots, at);
    let next = next_of(slots, at);
    if next == at {
        None
    } else {
        set_prev(slots, next, prev);
        set_next(slots, prev, next);
        Some(next)
    }
}
