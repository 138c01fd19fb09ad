// Finding a key.
ghost use Rattle.std.specs.Prelude.{◌≡◌, ◌<◌, length};
ghost use Rattle.interface.specs.Keys.{keying};
ghost use Rattle.ring_slab.specs.Slots.{item_at};
ghost use Rattle.ring_slab.specs.Chains.{bucket_of, chain_in};
ghost use Rattle.ring_slab.specs.Calls.{slots_of};
ghost use Rattle.shard.specs.Layout.{slots, ring_places};
ghost use Rattle.shard.specs.declared.ring.RingName.TheVariants.{Ghosts};
ghost use Rattle.shard.specs.Search.{Kept, keyed_by, ghostly, one_more, first_with, Sights, LeadsTo};
ghost use Rattle.shard.specs.Finds.{AtItsPlace, Finds};

use crate::cache_shard::CacheShard;
use crate::entry::Entry;
use crate::found::{Found, Sighting};
use interface::Key;
use ring_slab::linked_slab::LinkedSlab;

// Is the entry at `at` one of this key?
fn has_key<K: Key, V: Copy>(slab: &LinkedSlab<'_, Entry<K, V>>, at: u32, key: &K) -> bool
    requires { at < length (slots_of slab.now) }
    ensures { result ≡ keyed_by (keying K.Key) key.now (item_at (slots_of slab.now) at) }
{
    match slab.get(at) {
        Some(Entry::Resident(r)) => r.key.equal(key),
        Some(Entry::Placeholder(p)) => p.key.equal(key),
        _ => false,
    }
}

// Is the entry at `at` a ghost?
fn is_ghost<K: Copy, V: Copy>(slab: &LinkedSlab<'_, Entry<K, V>>, at: u32) -> bool
    requires { at < length (slots_of slab.now) }
    ensures { result ≡ ghostly (item_at (slots_of slab.now) at) }
{
    matches!(slab.get(at), Some(Entry::Ghost))
}

// What was seen so far, and one ghost more.
fn sighted(seen: Option<Sighting>, at: u32) -> Sighting
    ensures { result ≡ one_more at seen }
{
    match seen {
        None => Sighting::Ghost(at),
        Some(_) => Sighting::Ghosts,
    }
}

// Walks the chain of the hash's bucket, and stops at the key. A key is compared only where the hash is the same.
fn look_up<K: Key, V: Copy>(
    slab: &LinkedSlab<'_, Entry<K, V>>,
    key: &K,
    hash: u64,
) -> Option<Sighting>
    requires { Kept slab.now }
    ensures { Sights (slots_of slab.now) hash (keying K.Key) key.now (chain_in (slots_of slab.now) (bucket_of hash (length (slots_of slab.now)))) result }
{
    let mut seen = None;
    'chain: for at in slab.chain(hash) {
        if slab.hash_of(at) == hash {
            if has_key(slab, at, key) {
                return Some(Sighting::Keyed(at));
            }
            if is_ghost(slab, at) {
                seen = Some(sighted(seen, at));
            }
        }
    }
    seen
}

impl<'a, K: Key, V: Copy> CacheShard<'a, K, V> {
    // The ghost of the hash that is nearest the head of its ring.
    fn nearest_ghost(&self, hash: u64) -> Option<u32>
        ensures { result ≡ first_with (slots self.now.layout) hash (ring_places Ghosts self.now.layout) }
    {
        let slab = &self.layout.slab;
        slab.ring(self.layout.ghosts.head, self.layout.ghosts.len)
            .find(|at| slab.hash_of(*at) == hash)
    }

    // The place that the key leads to. The ring of ghosts is walked only where the chain has several of the hash.
    fn search(&self, key: &K, hash: u64) -> Option<u32>
        ensures { LeadsTo (keying K.Key) key.now hash self.now.layout result }
    {
        match look_up(&self.layout.slab, key, hash) {
            Some(Sighting::Keyed(at)) => Some(at),
            Some(Sighting::Ghost(at)) => Some(at),
            Some(Sighting::Ghosts) => self.nearest_ghost(hash),
            None => None,
        }
    }

    // What the key finds: its resident or its placeholder, else the ghost of its hash that is nearest the head, else nothing.
    // `hash` is the hash of the key.
    pub fn find(&self, key: &K, hash: u64) -> Option<Found<K, V>>
        requires { hash ≡ K.Key.code key.now }
        ensures place { AtItsPlace self.now.layout result }
        ensures model { Finds (keying K.Key) key.now self.now.layout result }
    {
        let at = self.search(key, hash)?;
        let entry = self.layout.slab.item(at)?;
        Some(Found { at, entry })
    }
}
