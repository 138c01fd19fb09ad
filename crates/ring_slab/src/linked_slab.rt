// Rings, a free list and hash chains in one borrowed slice of slots, linked by number: the slots are the caller's, and nothing
// is allocated.
ghost use Rattle.std.specs.Prelude.{◌≡◌, ◌<◌, ◌≤◌, min, length, Some, None, slice_set};
ghost use Rattle.ring_slab.specs.Places.{look, head_of, Below};
ghost use Rattle.ring_slab.specs.Slots.{chains, nexts, prevs, hashes, items, item_at, SameChains, SameRings};
ghost use Rattle.ring_slab.specs.Rings.{ring_from, Linked, Linkable};
ghost use Rattle.ring_slab.specs.Chains.{bucket_of, EndsIn, chain_from, chain_in, rest_of, home_of, Chained};

use crate::slots::Slot;
use crate::walk::{ChainPlaces, RingPlaces};
use crate::{chain, field, ring, vacancy, write};

// A slab over a slice of slots, or over the first 1,048,576 of them. A place is the number of a slot: a plain number, since
// slots keep places as links, so each call asks that its place is a slot's. That there are at most so many slots is asked only by
// the calls that need it: as a fact of the type it would be asked of every slab that is written as a literal. What a call leaves as
// it was (`SameChains`, `SameRings`, the items) is a clause: it relates the slab before to the one after.
#[derive(Drop)]
pub struct LinkedSlab<'a, T: Copy> {
    pub slots: &'a mut [Slot<T>],
    // the head of the free list, which is a link like those of the slots: the number of slots means that there is none
    pub free: u32,
    // how many slots are used
    pub used: u32,
}

impl<'a, T: Copy> LinkedSlab<'a, T> {
    ghost use Rattle.ring_slab.specs.Calls.{slots_of, set_if, Fresh, Takes, Frees, Links, Unlinks, Enters, Leaves, Stores, Turns, Follows};

    // A slab with every slot vacant, whatever the slots held.
    pub fn new(slots: &'a mut [Slot<T>]) -> LinkedSlab<'a, T>
        ensures size { length (slots_of result) ≡ min 1048576 (length slots.old) }
        ensures fresh { Fresh result }
    {
        let size = slots.len().min(1_048_576);
        let held = &mut slots[0..size];
        vacancy::clear(held);
        LinkedSlab {
            slots: held,
            free: 0,
            used: 0,
        }
    }

    // How many slots there are.
    pub fn capacity(&self) -> usize
        ensures { result ≡ length (slots_of self.now) }
    {
        self.slots.len()
    }

    // How many slots are used.
    pub fn len(&self) -> usize
        ensures { result ≡ self.now.used }
    {
        self.used as usize
    }

    // Puts `item` into a vacant slot and answers its place; none where no slot is vacant.
    pub fn take(&mut self, item: T) -> Option<u32>
        requires { self.old.used ≤ 1048576 }
        ensures lists { Takes self.old self.new result }
        ensures items { items (slots_of self.new) ≡ set_if (items (slots_of self.old)) result (Some item) }
        ensures chains { SameChains (slots_of self.old) (slots_of self.new) }
    {
        let at = self.free;
        if at as usize >= self.slots.len() {
            return None;
        }
        let next = vacancy::take(self.slots, at, item);
        self.free = next;
        self.used += 1;
        Some(at)
    }

    // Empties the slot of a loose place that is not entered, and answers its item. The place is the next one taken.
    pub fn free(&mut self, at: u32) -> Option<T>
        requires place { at < length (slots_of self.old) }
        requires used { 1 ≤ self.old.used }
        ensures lists { Frees self.old self.new at }
        ensures item { result ≡ item_at (slots_of self.old) at }
        ensures items { items (slots_of self.new) ≡ slice_set (items (slots_of self.old)) at None }
        ensures chains { SameChains (slots_of self.old) (slots_of self.new) }
    {
        let free = self.free;
        let item = vacancy::free(self.slots, at, free);
        self.free = at;
        self.used -= 1;
        item
    }

    // Puts a loose place into the ring with that head, as its last; alone where there is none. Answers the head of the
    // ring.
    pub fn link(&mut self, at: u32, head: Option<u32>) -> u32
        requires { Linkable (slots_of self.old) at head }
        ensures lists { Links self.old self.new at head result }
        ensures items { items (slots_of self.new) ≡ items (slots_of self.old) }
        ensures chains { SameChains (slots_of self.old) (slots_of self.new) }
    {
        ring::link(self.slots, at, head)
    }

    // Takes a place out of its ring, and answers the place after it, if there is another. The place is loose then.
    pub fn unlink(&mut self, at: u32) -> Option<u32>
        requires { Linked (slots_of self.old) at }
        ensures lists { Unlinks self.old self.new at result }
        ensures items { items (slots_of self.new) ≡ items (slots_of self.old) }
        ensures chains { SameChains (slots_of self.old) (slots_of self.new) }
    {
        ring::unlink(self.slots, at)
    }

    // Enters a used place under a hash, which its slot keeps.
    pub fn enter(&mut self, at: u32, hash: u64)
        requires place { at < length (slots_of self.old) }
        requires size { length (slots_of self.old) ≤ 1048576 }
        ensures lists { Enters self.old self.new at (bucket_of hash (length (slots_of self.old))) }
        ensures hashes { hashes (slots_of self.new) ≡ slice_set (hashes (slots_of self.old)) at hash }
        ensures items { items (slots_of self.new) ≡ items (slots_of self.old) }
        ensures rings { SameRings (slots_of self.old) (slots_of self.new) }
    {
        let bucket = chain::bucket_of(hash, self.slots.len());
        chain::enter(self.slots, bucket, at, hash);
    }

    // Takes an entered place out of the chain of the hash that its slot keeps.
    pub fn leave(&mut self, at: u32)
        requires chained { Chained (slots_of self.old) at }
        requires size { length (slots_of self.old) ≤ 1048576 }
        ensures lists { Leaves self.old self.new at (home_of (slots_of self.old) at) }
        ensures hashes { hashes (slots_of self.new) ≡ hashes (slots_of self.old) }
        ensures items { items (slots_of self.new) ≡ items (slots_of self.old) }
        ensures rings { SameRings (slots_of self.old) (slots_of self.new) }
    {
        let bucket = chain::bucket_of(self.hash_of(at), self.slots.len());
        chain::leave(self.slots, bucket, at);
    }

    // The first place in the chain of a hash's bucket, which holds every place entered under that hash.
    pub fn first(&self, hash: u64) -> Option<u32>
        requires { length (slots_of self.now) ≤ 1048576 }
        ensures place { result ≡ head_of (chain_in (slots_of self.now) (bucket_of hash (length (slots_of self.now)))) }
        ensures rest { rest_of (slots_of self.now) result ≡ chain_in (slots_of self.now) (bucket_of hash (length (slots_of self.now))) }
    {
        chain::first(self.slots, hash)
    }

    // The place after `at` in its chain.
    pub fn after(&self, at: u32) -> Option<u32>
        requires { at < length (slots_of self.now) }
        ensures place { result ≡ head_of (chain_from (slots_of self.now) (look (chains (slots_of self.now)) at)) }
        ensures walk { Follows self.now at result }
    {
        chain::after(self.slots, at)
    }

    // The places in the chain of a hash's bucket, in order.
    pub fn chain(&self, hash: u64) -> ChainPlaces<'_, T>
        requires size { length (slots_of self.now) ≤ 1048576 }
        requires ends { EndsIn (slots_of self.now) (bucket_of hash (length (slots_of self.now))) }
        ensures { result ≡ chain_in (slots_of self.now) (bucket_of hash (length (slots_of self.now))) }
    {
        let bucket = chain::bucket_of(hash, self.slots.len());
        ChainPlaces {
            slots: self.slots,
            link: chain::head_in(self.slots, bucket),
        }
    }

    // The places of a ring of so many places, from its head on, once round.
    pub fn ring(&self, head: Option<u32>, len: u32) -> RingPlaces<'_, T>
        requires { Below (length (slots_of self.now)) (ring_from (slots_of self.now) head len) }
        ensures { result ≡ ring_from (slots_of self.now) head len }
    {
        RingPlaces {
            slots: self.slots,
            next: head,
            left: len,
        }
    }

    // The next place round the ring; the place itself where it is alone.
    pub fn next_of(&self, at: u32) -> u32
        requires { at < length (slots_of self.now) }
        ensures link { result ≡ look (nexts (slots_of self.now)) at }
        ensures ring { Turns self.now at result }
    {
        field::next_of(self.slots, at)
    }

    // The place before, round the ring.
    pub fn prev_of(&self, at: u32) -> u32
        requires { at < length (slots_of self.now) }
        ensures { result ≡ look (prevs (slots_of self.now)) at }
    {
        field::prev_of(self.slots, at)
    }

    // The hash that a slot keeps.
    pub fn hash_of(&self, at: u32) -> u64
        requires { at < length (slots_of self.now) }
        ensures { result ≡ look (hashes (slots_of self.now)) at }
    {
        field::hash_of(self.slots, at)
    }

    // The item at a place, lent.
    pub fn get(&self, at: u32) -> &Option<T>
        requires { at < length (slots_of self.now) }
        ensures { result.now ≡ item_at (slots_of self.now) at }
    {
        field::item_at(self.slots, at)
    }

    // The item at a place, copied.
    pub fn item(&self, at: u32) -> Option<T>
        requires { at < length (slots_of self.now) }
        ensures { result ≡ item_at (slots_of self.now) at }
    {
        *field::item_at(self.slots, at)
    }

    // Writes an item into the slot of a used place.
    pub fn put(&mut self, at: u32, item: T)
        requires { at < length (slots_of self.old) }
        ensures lists { Stores self.old self.new at }
        ensures items { items (slots_of self.new) ≡ slice_set (items (slots_of self.old)) at (Some item) }
        ensures rings { SameRings (slots_of self.old) (slots_of self.new) }
        ensures chains { SameChains (slots_of self.old) (slots_of self.new) }
    {
        write::set_item(self.slots, at, Some(item));
    }
}
