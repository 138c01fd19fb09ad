// One field of one slot, written. A function for each field, so that what a write leaves is said once: several in a row
// would each repeat the whole slice.
#![tactic(auto, using(crate::proofs::Fields::column_steps))]

ghost use Rattle.std.specs.Prelude.{◌<◌, length, slice_set};
ghost use Rattle.ring_slab.specs.Slots.{buckets, chains, nexts, prevs, hashes, items, Columns};

use crate::slots::Slot;

pub(crate) fn set_next<T: Copy>(slots: &mut [Slot<T>], at: u32, next: u32)
    requires { at < length slots.old }
    ensures { Columns slots.new (buckets slots.old) (chains slots.old) (slice_set (nexts slots.old) at next) (prevs slots.old) (hashes slots.old) (items slots.old) }
{
    slots[at as usize].next = next;
}

pub(crate) fn set_prev<T: Copy>(slots: &mut [Slot<T>], at: u32, prev: u32)
    requires { at < length slots.old }
    ensures { Columns slots.new (buckets slots.old) (chains slots.old) (nexts slots.old) (slice_set (prevs slots.old) at prev) (hashes slots.old) (items slots.old) }
{
    slots[at as usize].prev = prev;
}

pub(crate) fn set_chain<T: Copy>(slots: &mut [Slot<T>], at: u32, chain: u32)
    requires { at < length slots.old }
    ensures { Columns slots.new (buckets slots.old) (slice_set (chains slots.old) at chain) (nexts slots.old) (prevs slots.old) (hashes slots.old) (items slots.old) }
{
    slots[at as usize].chain = chain;
}

pub(crate) fn set_bucket<T: Copy>(slots: &mut [Slot<T>], at: u32, bucket: u32)
    requires { at < length slots.old }
    ensures { Columns slots.new (slice_set (buckets slots.old) at bucket) (chains slots.old) (nexts slots.old) (prevs slots.old) (hashes slots.old) (items slots.old) }
{
    slots[at as usize].bucket = bucket;
}

pub(crate) fn set_hash<T: Copy>(slots: &mut [Slot<T>], at: u32, hash: u64)
    requires { at < length slots.old }
    ensures { Columns slots.new (buckets slots.old) (chains slots.old) (nexts slots.old) (prevs slots.old) (slice_set (hashes slots.old) at hash) (items slots.old) }
{
    slots[at as usize].hash = hash;
}

pub(crate) fn set_item<T: Copy>(slots: &mut [Slot<T>], at: u32, item: Option<T>)
    requires { at < length slots.old }
    ensures { Columns slots.new (buckets slots.old) (chains slots.old) (nexts slots.old) (prevs slots.old) (hashes slots.old) (slice_set (items slots.old) at item) }
{
    slots[at as usize].item = item;
}
