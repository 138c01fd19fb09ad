// The calls of the cache. None of them asks anything of its caller. Weigher, lifecycle and request state are three parameters,
// as in hands.rt.
ghost use Rattle.std.specs.Prelude.{◌≡◌, length};
ghost use Rattle.interface.specs.Keys.{keying};
ghost use Rattle.settings.specs.Standing.{limits};
ghost use Rattle.model.specs.Calls as calls;
ghost use Rattle.model.specs.Requests.{policy};
ghost use Rattle.ring_slab.specs.Slots.{items};
ghost use Rattle.shard.specs.Tallies.{recounted};
ghost use Rattle.shard.specs.Layout.{slots as slots_in};
ghost use Rattle.shard.specs.Depicts.{Depicts, Follows, FollowsPlainly};
ghost use Rattle.shard.specs.Replies.{pair_found, copy_found, taken};

use crate::cache::Cache;
use crate::cache_shard::CacheShard;
use crate::entry::Entry;
use crate::layout::Layout;
use crate::ring::Ring;
use crate::strategy::{InsertStrategy, Returned};
use crate::tally::Tally;
use interface::{Key, Lifecycle, Weighter};
use ring_slab::linked_slab::LinkedSlab;
use ring_slab::slots::Slot;
use settings::Settings;

impl<'a, K: Key, V: Copy> Cache<'a, K, V> {
    // A fresh cache over the first 1,048,576 slots of a slice, or all of it, whatever the slots hold.
    pub fn new(slots: &'a mut [Slot<Entry<K, V>>], settings: Settings) -> Cache<'a, K, V>
        ensures { Depicts (keying K.Key) result.shard.layout (calls.fresh (length slots.old) (limits settings)) }
    {
        let none = Ring { head: None, len: 0 };
        let layout = Layout {
            slab: LinkedSlab::new(slots),
            settings,
            hot: none,
            cold: none,
            ghosts: none,
            tally: Tally::NONE,
            issued: 0,
        };
        let shard = CacheShard { layout };
        Cache { shard }
    }

    // Takes a record in under its key. It is handed back, and nothing changes, where the key is not known and no slot is free;
    // a record that is above the target even when trimmed goes to the cold hook.
    pub fn insert<W: Weighter<K, V>, L: Lifecycle<K, V>>(
        &mut self,
        key: K,
        value: V,
        w: &W,
        life: &L,
        state: &mut L::State,
    ) -> Result<(), Returned<V>>
        ensures { Follows (keying K.Key) (L.life life.now) (calls.insert calls.plain key value (policy (W.weight w.now) (L.life life.now) state.old)) self.old.shard.layout self.new.shard.layout (taken result) state.old state.new }
    {
        self.shard
            .insert(key, value, InsertStrategy::Insert, w, life, state)
    }

    // Copies of the key and the record of the key's resident, which gains a read, up to 2.
    pub fn get(&mut self, key: &K) -> Option<(K, V)>
        ensures { FollowsPlainly (keying K.Key) (calls.get key.now) self.old.shard.layout self.new.shard.layout (pair_found result) }
    {
        self.shard.get(key)
    }

    // A copy of the record of the key's resident. Nothing changes.
    pub fn peek(&self, key: &K) -> Option<V>
        ensures { FollowsPlainly (keying K.Key) (calls.peek key.now) self.now.shard.layout self.now.shard.layout (copy_found result) }
    {
        self.shard.peek(key)
    }

    // Hands key and record of the key's resident back together. A ghost or a placeholder that the key finds is dropped. No
    // hook is called.
    pub fn remove(&mut self, key: &K) -> Option<(K, V)>
        ensures { FollowsPlainly (keying K.Key) (calls.remove key.now) self.old.shard.layout self.new.shard.layout (pair_found result) }
    {
        self.shard.remove(key)
    }
}

impl<'a, K: Copy, V: Copy> Cache<'a, K, V> {
    // How many hot residents, cold residents and ghosts there are, and what the hot and the cold ones weigh.
    #[tactic(auto, using(crate::proofs::Props::sound_of))]
    pub fn counts(&self) -> Tally
        ensures { result ≡ recounted (items (slots_in self.now.shard.layout)) }
    {
        self.shard.layout.tally
    }

    // The same, counted anew over all slots.
    pub fn recount(&self) -> Tally
        ensures { result ≡ recounted (items (slots_in self.now.shard.layout)) }
    {
        self.shard.recount()
    }

    // Capacity, hot target and ghost bound.
    pub fn settings(&self) -> Settings
        ensures { result ≡ self.now.shard.layout.settings }
    {
        self.shard.layout.settings
    }
}
