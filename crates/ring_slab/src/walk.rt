// Walks over the places of a ring or of a hash chain. A walk is seen as the list of the places that are left.
ghost use Rattle.std.specs.Iterator.{YieldsFirst, item_count};

use crate::chain::linked_place;
use crate::field::{chain_of, next_of};
use crate::slots::Slot;
use std::marker::Model;

// The places of a ring from its head on, once round.
#[derive(Drop)]
pub struct RingPlaces<'a, T: Copy> {
    pub(crate) slots: &'a [Slot<T>],
    // the place that comes next
    pub(crate) next: Option<u32>,
    // how many are left
    pub(crate) left: u32,
}

impl<'a, T: Copy> Model for RingPlaces<'a, T> {
    ghost use Rattle.std.specs.Prelude.{ℕ, List};
    ghost use Rattle.ring_slab.specs.Places.{Below};
    ghost use Rattle.ring_slab.specs.Rings.{ring_from};

    ghost Value = { List ℕ };

    ghost view = { λ it. ring_from it.slots.now it.next it.left };

    ghost use Rattle.std.specs.Prelude.{length};

    ghost invariant = { λ it. Below (length it.slots.now) (ring_from it.slots.now it.next it.left) };
}

impl<'a, T: Copy> Iterator for RingPlaces<'a, T> {
    type Item = u32;

    ghost next_gives = { YieldsFirst (λ rest. rest) };

    ghost remaining = { item_count (λ rest. rest) };

    #[tactic(auto, using(crate::proofs::Walks::ring_step))]
    fn next(&mut self) -> Option<u32> {
        let at = self.next?;
        if self.left == 0 {
            return None;
        }
        self.next = Some(next_of(self.slots, at));
        self.left -= 1;
        Some(at)
    }
}

// The places of a hash chain from one on to its end.
#[derive(Drop)]
pub struct ChainPlaces<'a, T: Copy> {
    pub(crate) slots: &'a [Slot<T>],
    // the link to the place that comes next
    pub(crate) link: u32,
}

impl<'a, T: Copy> Model for ChainPlaces<'a, T> {
    ghost use Rattle.std.specs.Prelude.{ℕ, List, length};
    ghost use Rattle.ring_slab.specs.Places.{look};
    ghost use Rattle.ring_slab.specs.Slots.{chains};
    ghost use Rattle.ring_slab.specs.Chains.{Ends, chain_from};

    ghost Value = { List ℕ };

    ghost view = { λ it. chain_from it.slots.now it.link };

    ghost invariant = { λ it. Ends (look (chains it.slots.now)) (length it.slots.now) it.link };
}

impl<'a, T: Copy> Iterator for ChainPlaces<'a, T> {
    type Item = u32;

    ghost next_gives = { YieldsFirst (λ rest. rest) };

    ghost remaining = { item_count (λ rest. rest) };

    fn next(&mut self) -> Option<u32> {
        let at = linked_place(self.slots, self.link)?;
        self.link = chain_of(self.slots, at);
        Some(at)
    }
}
