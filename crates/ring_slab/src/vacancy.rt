// The free list.
ghost use Rattle.std.specs.Prelude.{◌≡◌, ℕ, ◌+◌, ◌<◌, ◌≤◌, length, Some, None, slice_set};
ghost use Rattle.ring_slab.specs.Places.{look};
ghost use Rattle.ring_slab.specs.Slots.{buckets, chains, nexts, prevs, hashes, items, item_at, Columns};

use crate::field::{item_at, next_of};
use crate::slots::Slot;
use crate::write::{set_item, set_next};

// Empties every slot and every bucket, and puts all places into the free list, in order.
pub(crate) fn clear<T: Copy>(slots: &mut [Slot<T>])
    requires { length slots.old ≤ 1048576 }
    ensures nexts { (k : ℕ) → k < length slots.new → look (nexts slots.new) k ≡ k + 1 }
    ensures buckets { (k : ℕ) → k < length slots.new → look (buckets slots.new) k ≡ length slots.new }
    ensures items { (k : ℕ) → k < length slots.new → item_at slots.new k ≡ None }
{
    let none = slots.len() as u32;
    'fill: for (i, slot) in slots.iter_mut().enumerate() {
        *slot = Slot {
            bucket: none,
            chain: none,
            next: i as u32 + 1,
            prev: none,
            hash: 0,
            item: None,
        };
    }
}

// Stores `item` at a vacant place, and answers the vacant place after it.
pub(crate) fn take<T: Copy>(slots: &mut [Slot<T>], at: u32, item: T) -> u32
    requires { at < length slots.old }
    ensures next { result ≡ look (nexts slots.old) at }
    ensures columns { Columns slots.new (buckets slots.old) (chains slots.old) (nexts slots.old) (prevs slots.old) (hashes slots.old) (slice_set (items slots.old) at (Some item)) }
{
    let next = next_of(slots, at);
    set_item(slots, at, Some(item));
    next
}

// Empties the slot at a place, lets the free list from `free` on follow it, and answers what it held.
pub(crate) fn free<T: Copy>(slots: &mut [Slot<T>], at: u32, free: u32) -> Option<T>
    requires { at < length slots.old }
    ensures item { result ≡ item_at slots.old at }
    ensures columns { Columns slots.new (buckets slots.old) (chains slots.old) (slice_set (nexts slots.old) at free) (prevs slots.old) (hashes slots.old) (slice_set (items slots.old) at None) }
{
    let item = *item_at(slots, at);
    set_next(slots, at, free);
    set_item(slots, at, None);
    item
}
