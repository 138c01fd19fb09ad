// Counting entries: one more, one less, and all of them again.
ghost use Rattle.std.specs.Prelude.{◌≡◌, ◌+◌, ◌^◌, ◌<◌, ◌≤◌, Some, None};
ghost use Rattle.ring_slab.specs.Slots.{items};
ghost use Rattle.shard.specs.Tallies.{hot_one, cold_one, ghost_one, hot_share, cold_share, recounted, counted_in};
ghost use Rattle.shard.specs.Layout.{slots};

use crate::cache_shard::CacheShard;
use crate::entry::{Entry, ResidentState};
use crate::tally::Tally;

impl Tally {
    // Nothing counted.
    pub const NONE: Tally = Tally {
        hot: 0,
        cold: 0,
        ghosts: 0,
        hot_weight: 0,
        cold_weight: 0,
    };

    // One entry more.
    pub fn with<K: Copy, V: Copy>(self, entry: &Entry<K, V>) -> Tally
        requires { (self.hot < 2 ^ 31) × (self.cold < 2 ^ 31) × (self.ghosts < 2 ^ 31) × (self.hot_weight < 2 ^ 62) × (self.cold_weight < 2 ^ 62) }
        ensures tally { result ≡ counted_in (Some entry.now) self }
        ensures small { (hot_share (Some entry.now) < 2 ^ 32) × (cold_share (Some entry.now) < 2 ^ 32) }
    {
        match entry {
            Entry::Resident(r) => match r.state {
                ResidentState::Hot => Tally {
                    hot: self.hot + 1,
                    hot_weight: self.hot_weight + r.weight as u64,
                    ..self
                },
                ResidentState::Cold => Tally {
                    cold: self.cold + 1,
                    cold_weight: self.cold_weight + r.weight as u64,
                    ..self
                },
            },
            Entry::Placeholder(_) => self,
            Entry::Ghost => Tally {
                ghosts: self.ghosts + 1,
                ..self
            },
        }
    }

    // One entry less, which was counted.
    pub fn without<K: Copy, V: Copy>(self, entry: &Entry<K, V>) -> Tally
        requires { (hot_one (Some entry.now) ≤ self.hot) × (cold_one (Some entry.now) ≤ self.cold) × (ghost_one (Some entry.now) ≤ self.ghosts) × (hot_share (Some entry.now) ≤ self.hot_weight) × (cold_share (Some entry.now) ≤ self.cold_weight) }
        ensures { counted_in (Some entry.now) result ≡ self }
    {
        match entry {
            Entry::Resident(r) => match r.state {
                ResidentState::Hot => Tally {
                    hot: self.hot - 1,
                    hot_weight: self.hot_weight - r.weight as u64,
                    ..self
                },
                ResidentState::Cold => Tally {
                    cold: self.cold - 1,
                    cold_weight: self.cold_weight - r.weight as u64,
                    ..self
                },
            },
            Entry::Placeholder(_) => self,
            Entry::Ghost => Tally {
                ghosts: self.ghosts - 1,
                ..self
            },
        }
    }

    // What all residents weigh.
    pub fn weight(self) -> u64
        requires { self.hot_weight + self.cold_weight < 2 ^ 64 }
        ensures { result ≡ self.hot_weight + self.cold_weight }
    {
        self.hot_weight + self.cold_weight
    }
}

// The tally with what a slot holds.
fn counted<K: Copy, V: Copy>(tally: Tally, item: &Option<Entry<K, V>>) -> Tally
    requires { (tally.hot < 2 ^ 31) × (tally.cold < 2 ^ 31) × (tally.ghosts < 2 ^ 31) × (tally.hot_weight < 2 ^ 62) × (tally.cold_weight < 2 ^ 62) }
    ensures { result ≡ counted_in item.now tally }
{
    match item {
        None => tally,
        Some(entry) => tally.with(entry),
    }
}

// The tally without what a slot holds, which was counted.
pub fn uncounted<K: Copy, V: Copy>(tally: Tally, item: &Option<Entry<K, V>>) -> Tally
    requires { (hot_one item.now ≤ tally.hot) × (cold_one item.now ≤ tally.cold) × (ghost_one item.now ≤ tally.ghosts) × (hot_share item.now ≤ tally.hot_weight) × (cold_share item.now ≤ tally.cold_weight) }
    ensures { counted_in item.now result ≡ tally }
{
    match item {
        None => tally,
        Some(entry) => tally.without(entry),
    }
}

impl<'a, K: Copy, V: Copy> CacheShard<'a, K, V> {
    // Goes over all slots one by one.
    pub fn recount(&self) -> Tally
        ensures { result ≡ recounted (items (slots self.now.layout)) }
    {
        let mut tally = Tally::NONE;
        'slots: for slot in self.layout.slab.slots.iter() {
            tally = counted(tally, &slot.item);
        }
        tally
    }
}
