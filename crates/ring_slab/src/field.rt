// One field of one slot, read. A function for each: they differ in the field, which no parameter can name.
ghost use Rattle.std.specs.Prelude.{◌≡◌, ◌<◌, length};
ghost use Rattle.ring_slab.specs.Places.{look};
ghost use Rattle.ring_slab.specs.Slots.{chains, nexts, prevs, hashes, item_at};

use crate::slots::Slot;

// The next place in the ring or in the free list.
pub fn next_of<T: Copy>(slots: &[Slot<T>], at: u32) -> u32
    requires { at < length slots.now }
    ensures { result ≡ look (nexts slots.now) at }
{
    slots[at as usize].next
}

// The place before in the ring.
pub fn prev_of<T: Copy>(slots: &[Slot<T>], at: u32) -> u32
    requires { at < length slots.now }
    ensures { result ≡ look (prevs slots.now) at }
{
    slots[at as usize].prev
}

// The next place in the hash chain.
pub fn chain_of<T: Copy>(slots: &[Slot<T>], at: u32) -> u32
    requires { at < length slots.now }
    ensures { result ≡ look (chains slots.now) at }
{
    slots[at as usize].chain
}

// The hash that the slot keeps.
pub fn hash_of<T: Copy>(slots: &[Slot<T>], at: u32) -> u64
    requires { at < length slots.now }
    ensures { result ≡ look (hashes slots.now) at }
{
    slots[at as usize].hash
}

// The item at a place, lent.
pub fn item_at<T: Copy>(slots: &[Slot<T>], at: u32) -> &Option<T>
    requires { at < length slots.now }
    ensures { result.now ≡ item_at slots.now at }
{
    &slots[at as usize].item
}
