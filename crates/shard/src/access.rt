// Looking at records, and taking them out. `r` and `q` are what the caller read at `at`, which is asked, as in residents.rt.
ghost use Rattle.std.specs.Prelude.{◌≡◌, suc, min, Some};
ghost use Rattle.interface.specs.Keys.{keying};
ghost use Rattle.model.specs.Calls as calls;
ghost use Rattle.shard.specs.Layout.{entry_at};
ghost use Rattle.shard.specs.Steps.{SameTerms};
ghost use Rattle.shard.specs.Inserts.{Reads, DropsGhost, DropsPlaceholder};
ghost use Rattle.shard.specs.Depicts.{FollowsPlainly};
ghost use Rattle.shard.specs.Replies.{pair_found, copy_found};

use crate::cache_shard::CacheShard;
use crate::entry::{Entry, Placeholder, Resident};
use crate::found::Found;
use crate::ring::RingName;
use interface::Key;

// A read more, up to 2.
pub fn more_reads(reads: u8) -> u8
    ensures { result ≡ min 2 (suc reads) }
{
    reads.saturating_add(1).min(2)
}

impl<'a, K: Copy, V: Copy> CacheShard<'a, K, V> {
    // Adds a read to the resident `r` at `at`.
    pub fn add_read(&mut self, at: u32, r: Resident<K, V>)
        requires { entry_at self.old.layout at ≡ Some (Entry.Resident r) }
        ensures terms { SameTerms self.old.layout self.new.layout }
        ensures model { Reads at r self.old.layout self.new.layout }
    {
        let reads = more_reads(r.reads);
        self.layout
            .overwrite(at, Entry::Resident(Resident { reads, ..r }));
    }

    // Frees the slot of the ghost at `at`.
    #[tactic(auto, using(crate::proofs::Props::sound_of, crate::proofs::Resettling::ghost_there))]
    pub fn drop_ghost(&mut self, at: u32)
        requires { entry_at self.old.layout at ≡ Some Entry.Ghost }
        ensures terms { SameTerms self.old.layout self.new.layout }
        ensures model { DropsGhost at self.old.layout self.new.layout }
    {
        self.layout.delete(RingName::Ghosts, at);
        self.layout.release(at);
    }

    // Frees the slot of the placeholder `q` at `at`.
    pub fn drop_placeholder(&mut self, at: u32, q: Placeholder<K>)
        requires { entry_at self.old.layout at ≡ Some (Entry.Placeholder q) }
        ensures terms { SameTerms self.old.layout self.new.layout }
        ensures model { DropsPlaceholder at self.old.layout self.new.layout }
    {
        self.layout.release(at);
    }
}

impl<'a, K: Key, V: Copy> CacheShard<'a, K, V> {
    // The key and the record of the key's resident, which gains a read.
    pub fn get(&mut self, key: &K) -> Option<(K, V)>
        ensures { FollowsPlainly (keying K.Key) (calls.get key.now) self.old.layout self.new.layout (pair_found result) }
    {
        let Found { at, entry } = self.find(key, key.hash())?;
        match entry {
            Entry::Resident(r) => {
                self.add_read(at, r);
                Some((r.key, r.value))
            }
            Entry::Placeholder(_) | Entry::Ghost => None,
        }
    }

    // The record of the key's resident.
    pub fn peek(&self, key: &K) -> Option<V>
        ensures { FollowsPlainly (keying K.Key) (calls.peek key.now) self.now.layout self.now.layout (copy_found result) }
    {
        let Found { entry, .. } = self.find(key, key.hash())?;
        match entry {
            Entry::Resident(r) => Some(r.value),
            Entry::Placeholder(_) | Entry::Ghost => None,
        }
    }

    // Takes out what the key finds, and hands a resident's key and record back.
    pub fn remove(&mut self, key: &K) -> Option<(K, V)>
        ensures { FollowsPlainly (keying K.Key) (calls.remove key.now) self.old.layout self.new.layout (pair_found result) }
    {
        let Found { at, entry } = self.find(key, key.hash())?;
        match entry {
            Entry::Resident(r) => {
                self.expel(at, r);
                Some((r.key, r.value))
            }
            Entry::Placeholder(q) => {
                self.drop_placeholder(at, q);
                None
            }
            Entry::Ghost => {
                self.drop_ghost(at);
                None
            }
        }
    }
}
