// The hash chains. The chain of a bucket holds the places whose hash falls into that bucket.
ghost use Rattle.std.specs.Prelude.{IsSomeAnd, ◌≡◌, ◌<◌, ◌≤◌, length, ◌≢◌, slice_set};
ghost use Rattle.ring_slab.specs.Places.{look, count, head_of, behind_first, without};
ghost use Rattle.ring_slab.specs.Slots.{buckets, chains, nexts, prevs, hashes, items, Columns};
ghost use Rattle.ring_slab.specs.Chains.{bucket_of, Ends, EndsIn, chain_from, chain_in, rest_of, home_of, Chained, JustBefore, Rechained};

use crate::field::chain_of;
use crate::slots::Slot;
use crate::walk::ChainPlaces;
use crate::write::{set_bucket, set_chain, set_hash};

// The bucket of a hash among `n` slots.
#[tactic(auto, using(crate::proofs::Chains::bucket_below), unfolding(crate::specs::Chains::bucket_of))]
pub fn bucket_of(hash: u64, n: usize) -> u32
    requires { n ≤ 1048576 }
    ensures value { result ≡ bucket_of hash n }
    ensures below { 1 ≤ n → result < n }
{
    let mixed = hash.wrapping_mul(0xD6E8_FEB8_6659_FD93) >> 32;
    ((mixed * n as u64) >> 32) as u32
}

// The place that a link leads to; none at the end of a chain.
#[tactic(auto, using(crate::proofs::Chains::chain_past, crate::proofs::Chains::chain_head))]
pub(crate) fn linked_place<T: Copy>(slots: &[Slot<T>], link: u32) -> Option<u32>
    ensures place { result ≡ head_of (chain_from slots.now link) }
    ensures rest { rest_of slots.now result ≡ chain_from slots.now link }
{
    ((link as usize) < slots.len()).then_some(link)
}

// The link to the first place in the chain of a bucket; 0 where there are no slots, and so no bucket.
pub(crate) fn head_in<T: Copy>(slots: &[Slot<T>], bucket: u32) -> u32
    ensures { result ≡ look (buckets slots.now) bucket }
{
    slots.get(bucket as usize).map_or(0, |slot| slot.bucket)
}

// The first place in the chain of a hash's bucket.
pub fn first<T: Copy>(slots: &[Slot<T>], hash: u64) -> Option<u32>
    requires { length slots.now ≤ 1048576 }
    ensures place { result ≡ head_of (chain_in slots.now (bucket_of hash (length slots.now))) }
    ensures rest { rest_of slots.now result ≡ chain_in slots.now (bucket_of hash (length slots.now)) }
{
    let bucket = bucket_of(hash, slots.len());
    let head = head_in(slots, bucket);
    linked_place(slots, head)
}

// The place after `at` in its chain.
pub fn after<T: Copy>(slots: &[Slot<T>], at: u32) -> Option<u32>
    requires { at < length slots.now }
    ensures place { result ≡ head_of (chain_from slots.now (look (chains slots.now) at)) }
    ensures rest { rest_of slots.now result ≡ chain_from slots.now (look (chains slots.now) at) }
{
    let link = chain_of(slots, at);
    linked_place(slots, link)
}

// Enters `at` under `hash`, into the chain of a bucket, behind its first place.
pub(crate) fn enter<T: Copy>(slots: &mut [Slot<T>], bucket: u32, at: u32, hash: u64)
    requires place { at < length slots.old }
    requires bucket { bucket < length slots.old }
    ensures chain { EndsIn slots.old bucket → count at (chain_in slots.old bucket) ≡ 0 → Rechained slots.old slots.new bucket at (behind_first at (chain_in slots.old bucket)) }
    ensures others { Columns slots.new (buckets slots.new) (chains slots.new) (nexts slots.old) (prevs slots.old) (slice_set (hashes slots.old) at hash) (items slots.old) }
{
    let head = head_in(slots, bucket);
    set_hash(slots, at, hash);
    if (head as usize) < slots.len() {
        let second = chain_of(slots, head);
        set_chain(slots, at, second);
        set_chain(slots, head, at);
    } else {
        set_chain(slots, at, head);
        set_bucket(slots, bucket, at);
    }
}

// The place right before `at` in the chain from `first` on.
pub(crate) fn place_before<T: Copy>(slots: &[Slot<T>], first: u32, at: u32) -> Option<u32>
    requires ends { Ends (look (chains slots.now)) (length slots.now) first }
    requires later { first ≢ at }
    requires there { 1 ≤ count at (chain_from slots.now first) }
    ensures { IsSomeAnd result (JustBefore slots.now first at) }
{
    let mut places = ChainPlaces { slots, link: first };
    places.find(|place| chain_of(slots, *place) == at)
}

// Takes `at` out of the chain of a bucket, that of the hash that its slot keeps.
#[tactic(auto, using(crate::proofs::Chains::bucket_below))]
pub(crate) fn leave<T: Copy>(slots: &mut [Slot<T>], bucket: u32, at: u32)
    requires chained { Chained slots.old at }
    requires bucket { bucket ≡ home_of slots.old at }
    ensures chain { Rechained slots.old slots.new bucket at (without at (chain_in slots.old bucket)) }
    ensures others { Columns slots.new (buckets slots.new) (chains slots.new) (nexts slots.old) (prevs slots.old) (hashes slots.old) (items slots.old) }
{
    let head = head_in(slots, bucket);
    let next = chain_of(slots, at);
    if head == at {
        set_bucket(slots, bucket, next);
    } else if let Some(before) = place_before(slots, head, at) {
        set_chain(slots, before, next);
    }
}
