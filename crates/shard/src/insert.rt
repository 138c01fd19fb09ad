// Records that come in. What a key found is passed on beside the shard, and each function asks that it stands there still: a
// type that kept this would have to borrow the shard. `r` is what the caller read at `at`, as in residents.rt; weigher,
// lifecycle and request state are three parameters, as in hands.rt.
ghost use Rattle.std.specs.Prelude.{◌≡◌, ◌+◌, ◌<◌, false, length, if◌then◌else◌, Some, nat_le};
ghost use Rattle.interface.specs.Keys.{keying};
ghost use Rattle.settings.specs.Standing.{limits};
ghost use Rattle.model.specs.Calls as calls;
ghost use Rattle.shard.specs.declared.entry.ResidentState.TheVariants.{Hot};
ghost use Rattle.model.specs.Requests.{policy};
ghost use Rattle.shard.specs.Layout.{slots as slots_in, entry_at};
ghost use Rattle.shard.specs.Steps.{SameTerms};
ghost use Rattle.shard.specs.Finds.{AtItsPlace};
ghost use Rattle.shard.specs.Depicts.{Follows};
ghost use Rattle.shard.specs.Replies.{strategy_of, taken};
ghost use Rattle.shard.specs.Arrivals.{admitted, hooked_by, Ousts, TurnsAway, Replaces, Revives, Supplants, BringsIn, no_slot, LetsIn};

use crate::access::more_reads;
use crate::arrival::Arrival;
use crate::cache_shard::CacheShard;
use crate::entry::{Entry, Placeholder, Resident, ResidentState};
use crate::found::Found;
use crate::ring::RingName;
use crate::strategy::{InsertStrategy, Returned};
use interface::refusal::Refusal;
use interface::{Key, Lifecycle, Weighter};

// Weighs a record, and trims it where it is above the target and not pinned. It may come in as it is then, with its weight;
// or it is too heavy, even trimmed.
#[tactic(auto, unfolding(model::specs::Lists::when))]
fn admission<K: Copy, V: Copy, W: Weighter<K, V>, L: Lifecycle<K, V>>(
    target: u64,
    key: &K,
    value: V,
    w: &W,
    life: &L,
    state: &mut L::State,
) -> Result<(V, u32), V>
    ensures state { state.new ≡ (admitted (W.weight w.now) (L.life life.now) target key.now value state.old).0 }
    ensures result { result ≡ (admitted (W.weight w.now) (L.life life.now) target key.now value state.old).1 }
{
    let weight = w.weigh(key, &value);
    if weight as u64 <= target || life.is_pinned(key, &value) {
        return Ok((value, weight));
    }
    let trimmed = life.before_evict(state, key, value);
    let lighter = w.weigh(key, &trimmed);
    if lighter as u64 <= target {
        Ok((trimmed, lighter))
    } else {
        Err(trimmed)
    }
}

// Passes a record that leaves to the hook of its state.
fn hook<K: Copy, V: Copy, L: Lifecycle<K, V>>(
    part: ResidentState,
    key: K,
    value: V,
    life: &L,
    state: &mut L::State,
)
    ensures { state.new ≡ hooked_by (L.life life.now) part key value state.old }
{
    match part {
        ResidentState::Hot => life.on_evict_hot(state, key, value),
        ResidentState::Cold => life.on_evict_cold(state, key, value),
    }
}

// The reads of a resident whose record was replaced.
fn reads_after(strategy: InsertStrategy, reads: u8) -> u8
    ensures { result ≡ calls.reads_after (strategy_of strategy) reads }
{
    match strategy {
        InsertStrategy::Insert | InsertStrategy::Replace { soft: false } => more_reads(reads),
        InsertStrategy::Replace { soft: true } => reads,
    }
}

impl<'w, K: Copy, V: Copy, W: Weighter<K, V>> Arrival<'w, K, V, W> {
    // The resident that it becomes.
    fn resident(&self, state: ResidentState, reads: u8) -> Resident<K, V>
        ensures { result ≡ record { key = self.now.key; weight = self.now.weight; value = self.now.value; state = state; reads = reads } }
    {
        Resident {
            key: self.key,
            weight: self.weight,
            value: self.value,
            state,
            reads,
        }
    }
}

impl<'a, K: Copy, V: Copy> CacheShard<'a, K, V> {
    // Deletes the resident that a key found, which goes to its hook.
    fn oust<L: Lifecycle<K, V>>(
        &mut self,
        found: Option<Found<K, V>>,
        life: &L,
        state: &mut L::State,
    )
        requires { AtItsPlace self.old.layout found }
        ensures terms { SameTerms self.old.layout self.new.layout }
        ensures model { Ousts (L.life life.now) found self.old.layout self.new.layout state.old state.new }
    {
        if let Some(
            Found {
                at,
                entry: Entry::Resident(r),
            },
        ) = found
        {
            self.expel(at, r);
            hook(r.state, r.key, r.value, life, state);
        }
    }

    // A record that is too heavy, even trimmed: a resident of its key goes to its hook, and then so does the record, or it
    // is handed back.
    fn handle_insert_overweight<L: Lifecycle<K, V>>(
        &mut self,
        found: Option<Found<K, V>>,
        key: K,
        value: V,
        strategy: InsertStrategy,
        life: &L,
        state: &mut L::State,
    ) -> Result<(), Returned<V>>
        requires { AtItsPlace self.old.layout found }
        ensures terms { SameTerms self.old.layout self.new.layout }
        ensures model { TurnsAway (L.life life.now) (strategy_of strategy) key value found self.old.layout self.new.layout (taken result) state.old state.new }
    {
        self.oust(found, life, state);
        match strategy {
            InsertStrategy::Insert => {
                life.on_evict_cold(state, key, value);
                Ok(())
            }
            InsertStrategy::Replace { .. } => Err(Returned {
                why: Refusal::Overweight,
                value,
            }),
        }
    }

    // The record takes the place of that of the resident `r` at `at`.
    fn replace_resident<W: Weighter<K, V>, L: Lifecycle<K, V>>(
        &mut self,
        at: u32,
        r: Resident<K, V>,
        arrival: Arrival<'_, K, V, W>,
        strategy: InsertStrategy,
        life: &L,
        state: &mut L::State,
    )
        requires { entry_at self.old.layout at ≡ Some (Entry.Resident r) }
        ensures terms { SameTerms self.old.layout self.new.layout }
        ensures model { Replaces (W.weight arrival.entry.weighter.now) (L.life life.now) (strategy_of strategy) at r arrival.entry.key arrival.entry.value self.old.layout self.new.layout state.old state.new }
    {
        let new = arrival.resident(r.state, reads_after(strategy, r.reads));
        self.resettle(at, r, new);
        hook(r.state, r.key, r.value, life, state);
        self.shrink(0, arrival.weighter, life, state);
    }

    // A ghost at `at` becomes a hot resident.
    fn revive<W: Weighter<K, V>, L: Lifecycle<K, V>>(
        &mut self,
        at: u32,
        arrival: Arrival<'_, K, V, W>,
        life: &L,
        state: &mut L::State,
    )
        requires { entry_at self.old.layout at ≡ Some Entry.Ghost }
        ensures terms { SameTerms self.old.layout self.new.layout }
        ensures model { Revives (W.weight arrival.entry.weighter.now) (L.life life.now) at arrival.entry.key arrival.entry.value self.old.layout self.new.layout state.old state.new }
    {
        let r = arrival.resident(ResidentState::Hot, 0);
        self.layout.delete(RingName::Ghosts, at);
        self.layout.overwrite(at, Entry::Resident(r));
        self.layout.enter(at, r);
        self.shrink(0, arrival.weighter, life, state);
    }

    // The placeholder `q` at `at` becomes a resident of its state, with one read.
    fn supplant<W: Weighter<K, V>, L: Lifecycle<K, V>>(
        &mut self,
        at: u32,
        q: Placeholder<K>,
        arrival: Arrival<'_, K, V, W>,
        life: &L,
        state: &mut L::State,
    )
        requires { entry_at self.old.layout at ≡ Some (Entry.Placeholder q) }
        ensures terms { SameTerms self.old.layout self.new.layout }
        ensures model { Supplants (W.weight arrival.entry.weighter.now) (L.life life.now) at q arrival.entry.key arrival.entry.value self.old.layout self.new.layout state.old state.new }
    {
        let r = arrival.resident(q.state, 1);
        self.layout.overwrite(at, Entry::Resident(r));
        self.layout.enter(at, r);
        self.shrink(0, arrival.weighter, life, state);
    }

    // The part that a record of this weight would enter.
    pub fn entry_state(&self, weight: u32, otherwise: ResidentState) -> ResidentState
        ensures { result ≡ (if nat_le (self.now.layout.tally.hot_weight + weight) (limits self.now.layout.settings).target then Hot else otherwise) }
    {
        if self.layout.tally.hot_weight + weight as u64 <= self.layout.settings.hot_target() {
            ResidentState::Hot
        } else {
            otherwise
        }
    }

    // A record whose key is not known: the cache makes room for it, and it enters. There is a free slot.
    fn insert_absent<W: Weighter<K, V>, L: Lifecycle<K, V>>(
        &mut self,
        arrival: Arrival<'_, K, V, W>,
        life: &L,
        state: &mut L::State,
    )
        requires { self.old.layout.slab.used < length (slots_in self.old.layout) }
        ensures terms { SameTerms self.old.layout self.new.layout }
        ensures model { BringsIn (W.weight arrival.entry.weighter.now) (L.life life.now) arrival.entry.key arrival.entry.hash arrival.entry.value self.old.layout self.new.layout state.old state.new }
    {
        let part = self.entry_state(arrival.weight, ResidentState::Cold);
        self.shrink(arrival.weight, arrival.weighter, life, state);
        let r = arrival.resident(part, 0);
        // a slot was free, and is still
        if let Some(at) = self.layout.occupy(Entry::Resident(r), arrival.hash) {
            self.layout.enter(at, r);
        }
    }

    // Is there no slot for a record whose key finds this?
    fn lacks_slot(&self, found: Option<Found<K, V>>, strategy: InsertStrategy) -> bool
        ensures { result ≡ no_slot strategy found self.now.layout }
    {
        match (strategy, found) {
            (InsertStrategy::Insert, None) => {
                self.layout.slab.capacity() <= self.layout.slab.len()
            }
            (InsertStrategy::Insert, Some(_)) | (InsertStrategy::Replace { .. }, _) => false,
        }
    }

    // A record that may come in meets what its key finds. There is a slot for it. Only a resident is replaced.
    fn let_in<W: Weighter<K, V>, L: Lifecycle<K, V>>(
        &mut self,
        found: Option<Found<K, V>>,
        arrival: Arrival<'_, K, V, W>,
        strategy: InsertStrategy,
        life: &L,
        state: &mut L::State,
    ) -> Result<(), Returned<V>>
        requires place { AtItsPlace self.old.layout found }
        requires slot { no_slot strategy found self.old.layout ≡ false }
        ensures terms { SameTerms self.old.layout self.new.layout }
        ensures model { LetsIn (W.weight arrival.entry.weighter.now) (L.life life.now) (strategy_of strategy) arrival.entry.key arrival.entry.hash arrival.entry.value found self.old.layout self.new.layout (taken result) state.old state.new }
    {
        match (found, strategy) {
            (None, InsertStrategy::Insert) => self.insert_absent(arrival, life, state),
            (
                Some(
                    Found {
                        at,
                        entry: Entry::Resident(r),
                    },
                ),
                _,
            ) => self.replace_resident(at, r, arrival, strategy, life, state),
            (
                Some(
                    Found {
                        at,
                        entry: Entry::Placeholder(q),
                    },
                ),
                InsertStrategy::Insert,
            ) => self.supplant(at, q, arrival, life, state),
            (
                Some(
                    Found {
                        at,
                        entry: Entry::Ghost,
                    },
                ),
                InsertStrategy::Insert,
            ) => self.revive(at, arrival, life, state),
            (_, InsertStrategy::Replace { .. }) => {
                return Err(Returned {
                    why: Refusal::NotResident,
                    value: arrival.value,
                });
            }
        }
        Ok(())
    }
}

impl<'a, K: Key, V: Copy> CacheShard<'a, K, V> {
    // Insert and replace.
    pub fn insert<W: Weighter<K, V>, L: Lifecycle<K, V>>(
        &mut self,
        key: K,
        value: V,
        strategy: InsertStrategy,
        w: &W,
        life: &L,
        state: &mut L::State,
    ) -> Result<(), Returned<V>>
        ensures { Follows (keying K.Key) (L.life life.now) (calls.insert (strategy_of strategy) key value (policy (W.weight w.now) (L.life life.now) state.old)) self.old.layout self.new.layout (taken result) state.old state.new }
    {
        let hash = key.hash();
        let found = self.find(&key, hash);
        if self.lacks_slot(found, strategy) {
            return Err(Returned {
                why: Refusal::NoFreeSlot,
                value,
            });
        }
        let target = self.layout.settings.hot_target();
        match admission(target, &key, value, w, life, state) {
            Ok((value, weight)) => {
                let arrival = Arrival {
                    key,
                    hash,
                    value,
                    weight,
                    weighter: w,
                };
                self.let_in(found, arrival, strategy, life, state)
            }
            Err(heavy) => self.handle_insert_overweight(found, key, heavy, strategy, life, state),
        }
    }
}
