// What a shard consists of, and moving entries between its rings, with the counts that go with what is written. Nothing
// else in the crate links a slot, fills one or frees one.
ghost use Rattle.std.specs.Prelude.{◌≡◌, ◌<◌, ◌≤◌, [], ◌∷◌, length, Some, None, slice_set};
ghost use Rattle.ring_slab.specs.Places.{count};
ghost use Rattle.ring_slab.specs.Slots.{items, hashes};
ghost use Rattle.ring_slab.specs.Calls.{set_if};
ghost use Rattle.shard.specs.Layout.{slots, ring as head_and_length, with_ring, in_ring, kind_of, entry_at, ring_places, Counted, Sound, SameEntries};
ghost use Rattle.shard.specs.Moves.{handed, Appends, TurnsOut, Deletes, Occupies, Overwrites, Releases};
ghost use Rattle.shard.specs.Steps.{SameTerms};

use crate::counting::uncounted;
use crate::entry::Entry;
use crate::ring::{Ring, RingName};
use crate::tally::Tally;
use ring_slab::linked_slab::LinkedSlab;
use settings::Settings;

// The slots of a shard, the rings in them, what is counted of them, and the terms that it works under. While a call moves an
// entry, its place is in hand: in no ring. What is in hand differs from function to function, so what is known of it, and that
// the lists stand, are clauses of each here; in `CacheShard` it is a fact of the type. Of what a call leaves see there.
#[derive(Drop)]
pub struct Layout<'a, K: Copy, V: Copy> {
    pub slab: LinkedSlab<'a, Entry<K, V>>,
    pub settings: Settings,
    pub hot: Ring,
    pub cold: Ring,
    pub ghosts: Ring,
    pub tally: Tally,
    // how many tickets have been given out
    pub issued: u64,
}

impl<'a, K: Copy, V: Copy> Layout<'a, K, V> {
    // The ring of that name.
    pub fn ring(&self, name: RingName) -> Ring
        ensures { result ≡ head_and_length name self.now }
    {
        match name {
            RingName::Hot => self.hot,
            RingName::Cold => self.cold,
            RingName::Ghosts => self.ghosts,
        }
    }

    // Puts another ring in the place of that one.
    fn set_ring(&mut self, name: RingName, ring: Ring)
        ensures { self.new ≡ with_ring name ring self.old }
    {
        match name {
            RingName::Hot => self.hot = ring,
            RingName::Cold => self.cold = ring,
            RingName::Ghosts => self.ghosts = ring,
        }
    }

    // Appends a place that is in hand to the ring where it belongs.
    pub fn append(&mut self, name: RingName, at: u32)
        requires sound { Sound self.old (at ∷ []) }
        requires kind { kind_of (entry_at self.old at) ≡ in_ring name }
        ensures sound { Sound self.new [] }
        ensures places { Appends name at self.old self.new }
        ensures entries { SameEntries self.old self.new }
    {
        let ring = self.ring(name);
        let head = Some(self.slab.link(at, ring.head));
        let len = ring.len + 1;
        self.set_ring(name, Ring { head, len });
    }

    // Takes a place out of its ring; its successor is the head then.
    pub fn turn_out(&mut self, name: RingName, at: u32)
        requires sound { Sound self.old [] }
        requires there { 1 ≤ count at (ring_places name self.old) }
        ensures sound { Sound self.new (at ∷ []) }
        ensures places { TurnsOut name at self.old self.new }
        ensures entries { SameEntries self.old self.new }
    {
        let ring = self.ring(name);
        let next = self.slab.unlink(at);
        let len = ring.len - 1;
        self.set_ring(name, Ring { head: next, len });
    }

    // Takes a place out of its ring; the others keep their order.
    pub fn delete(&mut self, name: RingName, at: u32)
        requires sound { Sound self.old [] }
        requires there { 1 ≤ count at (ring_places name self.old) }
        ensures sound { Sound self.new (at ∷ []) }
        ensures places { Deletes name at self.old self.new }
        ensures entries { SameEntries self.old self.new }
    {
        let ring = self.ring(name);
        let next = self.slab.unlink(at);
        let head = if ring.head == Some(at) {
            next
        } else {
            ring.head
        };
        let len = ring.len - 1;
        self.set_ring(name, Ring { head, len });
    }

    // Puts an entry into a free slot, to be found under its hash, and has it in hand; none where no slot is free.
    pub fn occupy(&mut self, entry: Entry<K, V>, hash: u64) -> Option<u32>
        requires { Sound self.old [] }
        ensures sound { Sound self.new (handed result) }
        ensures places { Occupies result self.old self.new }
        ensures items { items (slots self.new) ≡ set_if (items (slots self.old)) result (Some entry) }
        ensures hashes { hashes (slots self.new) ≡ set_if (hashes (slots self.old)) result hash }
        ensures terms { SameTerms self.old self.new }
    {
        match self.slab.take(entry) {
            None => None,
            Some(at) => {
                self.slab.enter(at, hash);
                self.tally = self.tally.with(&entry);
                Some(at)
            }
        }
    }

    // Writes an entry over the one at `at`, which stays where it is.
    pub fn overwrite(&mut self, at: u32, entry: Entry<K, V>)
        requires place { at < length (slots self.old) }
        requires size { length (slots self.old) ≤ 1048576 }
        requires counted { Counted self.old }
        ensures places { Overwrites at entry self.old self.new }
        ensures items { items (slots self.new) ≡ slice_set (items (slots self.old)) at (Some entry) }
        ensures hashes { hashes (slots self.new) ≡ hashes (slots self.old) }
        ensures terms { SameTerms self.old self.new }
    {
        let old = self.slab.item(at);
        let others = uncounted(self.tally, &old);
        self.slab.put(at, entry);
        self.tally = others.with(&entry);
    }

    // Frees the slot in hand.
    pub fn release(&mut self, at: u32)
        requires { Sound self.old (at ∷ []) }
        ensures sound { Sound self.new [] }
        ensures places { Releases at self.old self.new }
        ensures items { items (slots self.new) ≡ slice_set (items (slots self.old)) at None }
        ensures hashes { hashes (slots self.new) ≡ hashes (slots self.old) }
        ensures terms { SameTerms self.old self.new }
    {
        self.slab.leave(at);
        let old = self.slab.free(at);
        self.tally = uncounted(self.tally, &old);
    }
}
