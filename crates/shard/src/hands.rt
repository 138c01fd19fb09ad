// The two clock hands. Weigher, lifecycle and request state go from call to call as three parameters: a struct of them would
// lend the state on by a `&mut` inside, and each function would owe a clause that it leaves the other two as they are. `r` is
// what the caller read at `at`, which is asked, as in residents.rt; of what a call leaves see cache_shard.rt.
ghost use Rattle.std.specs.Prelude.{◌≡◌, ℕ, ◌+◌, ◌<◌, ◌≤◌, true, false, not, [], ◌∷◌, length, IfSome, Some, slice_set};
ghost use Rattle.model.specs.Hands.{evict as evicted, hot_hand, cold_hand, cool as cooled, shrink as shrunk};
ghost use Rattle.ring_slab.specs.Places.{look, count};
ghost use Rattle.ring_slab.specs.Slots.{nexts, items, item_at};
ghost use Rattle.ring_slab.specs.Rings.{Ring as IsRing, walk};
ghost use Rattle.ring_slab.specs.Holding.{SameLinks};
ghost use Rattle.ring_slab.specs.Calls.{slots_of};
ghost use Rattle.shard.specs.declared.entry.Entry.TheVariants as E;
ghost use Rattle.shard.specs.declared.ring.RingName.TheVariants.{Hot, Cold};
ghost use Rattle.shard.specs.Layout.{in_ring, kind_of, slots as slots_in, entry_at, ring_places, Sound};
ghost use Rattle.shard.specs.Steps.{FollowsHand, FollowsRings, NoMoreUsed, Falls};
ghost use Rattle.shard.specs.Hands.{listed, worn, resident_of, Meets, halts, Lapped, SameShape, OnlyReads, WalksHot, Halted, TakesHot, Promotes, BoundsGhosts, LeavesCold, SameLengths, LetsGo};

use crate::cache_shard::CacheShard;
use crate::entry::{Entry, Resident, ResidentState};
use crate::lap::{Lap, Met};
use crate::layout::Layout;
use crate::ring::RingName;
use interface::{Lifecycle, Weighter};
use ring_slab::linked_slab::LinkedSlab;
use ring_slab::slots::Slot;

// Takes a read from a resident, if it has one.
fn touch_entry<K: Copy, V: Copy, L: Lifecycle<K, V>>(entry: &mut Entry<K, V>, life: &L) -> Met
    ensures entry { Some entry.new ≡ worn (Some entry.old) }
    ensures met { Meets (L.life life.now).pins (Some entry.old) result }
{
    match entry {
        Entry::Resident(r) => {
            let pinned = life.is_pinned(&r.key, &r.value);
            if r.reads > 0 {
                r.reads -= 1;
                if pinned { Met::Pinned } else { Met::Unpinned }
            } else if pinned {
                Met::Pinned
            } else {
                Met::Stop
            }
        }
        Entry::Placeholder(_) => Met::Stop,
        Entry::Ghost => Met::Stop,
    }
}

// Takes a read from the resident at `at`, if it has one.
fn touch_slot<K: Copy, V: Copy, L: Lifecycle<K, V>>(
    s: &mut [Slot<Entry<K, V>>],
    at: u32,
    life: &L,
) -> Met
    requires { at < length s.old }
    ensures links { SameLinks s.old s.new }
    ensures items { items s.new ≡ slice_set (items s.old) at (worn (item_at s.old at)) }
    ensures met { Meets (L.life life.now).pins (item_at s.old at) result }
{
    match &mut s[at as usize].item {
        Some(entry) => touch_entry(entry, life),
        None => Met::Stop,
    }
}

fn touch<K: Copy, V: Copy, L: Lifecycle<K, V>>(
    slab: &mut LinkedSlab<'_, Entry<K, V>>,
    at: u32,
    life: &L,
) -> Met
    requires { at < length (slots_of slab.old) }
    ensures shape { SameShape slab.old slab.new }
    ensures items { items (slots_of slab.new) ≡ slice_set (items (slots_of slab.old)) at (worn (item_at (slots_of slab.old) at)) }
    ensures met { Meets (L.life life.now).pins (item_at (slots_of slab.old) at) result }
{
    touch_slot(slab.slots, at, life)
}

// One lap of the hot hand over the ring of `len` places from `head` on, or less where it stops. The ring is not empty, so head
// and length come apart and not as a `Ring`.
fn hot_lap<K: Copy, V: Copy, L: Lifecycle<K, V>>(
    slab: &mut LinkedSlab<'_, Entry<K, V>>,
    head: u32,
    len: u32,
    life: &L,
) -> Lap
    requires { IsRing (slots_of slab.old) (walk (look (nexts (slots_of slab.old))) head len) }
    ensures shape { SameShape slab.old slab.new }
    ensures lapped { Lapped (L.life life.now).pins (walk (look (nexts (slots_of slab.old))) head len) (slots_of slab.old) (slots_of slab.new) result }
{
    let mut at = head;
    let mut all = true;
    // the hand changes the entries that it passes, so no iterator may borrow the slab meanwhile
    'lap: for _i in 0..len {
        match touch(slab, at, life) {
            Met::Stop => return Lap::Stop(at),
            Met::Unpinned => all = false,
            Met::Pinned => {}
        }
        at = slab.next_of(at);
    }
    if all { Lap::Pinned } else { Lap::Unpinned }
}

// The walk of the hot hand: the place where it stops, or none where all are pinned.
fn hot_walk<K: Copy, V: Copy, L: Lifecycle<K, V>>(
    slab: &mut LinkedSlab<'_, Entry<K, V>>,
    head: u32,
    len: u32,
    life: &L,
) -> Option<u32>
    requires { IsRing (slots_of slab.old) (walk (look (nexts (slots_of slab.old))) head len) }
    ensures shape { SameShape slab.old slab.new }
    ensures reads { OnlyReads (slots_of slab.old) (slots_of slab.new) }
    ensures off { (k : ℕ) → count k (walk (look (nexts (slots_of slab.old))) head len) ≡ 0 → item_at (slots_of slab.new) k ≡ item_at (slots_of slab.old) k }
    ensures place { IfSome result (λ at. 1 ≤ count at (walk (look (nexts (slots_of slab.old))) head len)) }
    ensures model { WalksHot (L.life life.now).pins (walk (look (nexts (slots_of slab.old))) head len) (slots_of slab.old) (slots_of slab.new) result }
{
    'laps: loop {
        match hot_lap(slab, head, len, life) {
            Lap::Stop(at) => return Some(at),
            Lap::Unpinned => {}
            Lap::Pinned => return None,
        }
    }
}

// Does the cold hand go past the entry at `at`: a pinned resident without reads?
fn cold_passes<K: Copy, V: Copy, L: Lifecycle<K, V>>(
    slab: &LinkedSlab<'_, Entry<K, V>>,
    at: u32,
    life: &L,
) -> bool
    requires { at < length (slots_of slab.now) }
    ensures { result ≡ not (halts (L.life life.now).pins (item_at (slots_of slab.now) at)) }
{
    match slab.get(at) {
        Some(Entry::Resident(r)) => r.reads == 0 && life.is_pinned(&r.key, &r.value),
        _ => false,
    }
}

// The resident at `at`, copied.
fn resident_at<K: Copy, V: Copy>(
    slab: &LinkedSlab<'_, Entry<K, V>>,
    at: u32,
) -> Option<Resident<K, V>>
    requires { at < length (slots_of slab.now) }
    ensures { result ≡ resident_of (item_at (slots_of slab.now) at) }
{
    match slab.get(at) {
        Some(Entry::Resident(r)) => Some(*r),
        _ => None,
    }
}

impl<'a, K: Copy, V: Copy> Layout<'a, K, V> {
    // Takes out of the hot ring the resident at which the hot hand stops.
    fn take_hot<L: Lifecycle<K, V>>(&mut self, life: &L) -> Option<u32>
        requires { Sound self.old [] }
        ensures sound { Sound self.new (listed result) }
        ensures kind { IfSome result (λ at. kind_of (entry_at self.new at) ≡ in_ring Hot) }
        ensures used { NoMoreUsed self.old self.new }
        ensures hot { self.new.hot.len + length (listed result) ≡ self.old.hot.len }
        ensures cold { self.new.cold.len ≡ self.old.cold.len }
        ensures model { TakesHot (L.life life.now).pins self.old self.new result }
    {
        match self.hot.head {
            None => None,
            Some(head) => match hot_walk(&mut self.slab, head, self.hot.len, life) {
                None => None,
                Some(at) => {
                    self.turn_out(RingName::Hot, at);
                    Some(at)
                }
            },
        }
    }

    // Trims the resident at `at`, which was hot and is in no ring, and lets it go unless it weighs nothing then.
    fn evict_hot<W: Weighter<K, V>, L: Lifecycle<K, V>>(
        &mut self,
        at: u32,
        w: &W,
        life: &L,
        state: &mut L::State,
    )
        requires sound { Sound self.old (at ∷ []) }
        requires kind { kind_of (entry_at self.old at) ≡ in_ring Hot }
        ensures sound { Sound self.new [] }
        ensures used { NoMoreUsed self.old self.new }
        ensures lengths { SameLengths self.old self.new }
        ensures model { LetsGo (W.weight w.now) (L.life life.now) evicted at self.old self.new state.old state.new }
    {
        if let Some(r) = resident_at(&self.slab, at) {
            let value = life.before_evict(state, &r.key, r.value);
            let weight = w.weigh(&r.key, &value);
            if weight == 0 {
                self.overwrite(at, Entry::Resident(Resident { value, weight, ..r }));
            } else {
                self.release(at);
                life.on_evict_hot(state, r.key, value);
            }
        }
    }

    // Drops the oldest ghost if there are more than the bound.
    pub fn bound_ghosts(&mut self)
        requires { Sound self.old [] }
        ensures sound { Sound self.new [] }
        ensures used { NoMoreUsed self.old self.new }
        ensures lengths { SameLengths self.old self.new }
        ensures model { BoundsGhosts self.old self.new }
    {
        if self.ghosts.len as u64 > self.settings.ghost_bound() {
            if let Some(at) = self.ghosts.head {
                self.turn_out(RingName::Ghosts, at);
                self.release(at);
            }
        }
    }

    // Trims the resident `r` at `at`, which was cold and is in no ring; unless it weighs nothing then, a ghost takes its slot.
    fn evict_cold<W: Weighter<K, V>, L: Lifecycle<K, V>>(
        &mut self,
        at: u32,
        r: Resident<K, V>,
        w: &W,
        life: &L,
        state: &mut L::State,
    )
        requires sound { Sound self.old (at ∷ []) }
        requires kind { kind_of (entry_at self.old at) ≡ in_ring Cold }
        requires entry { entry_at self.old at ≡ Some (E.Resident r) }
        ensures sound { Sound self.new [] }
        ensures used { NoMoreUsed self.old self.new }
        ensures lengths { SameLengths self.old self.new }
        ensures model { LetsGo (W.weight w.now) (L.life life.now) evicted at self.old self.new state.old state.new }
    {
        let value = life.before_evict(state, &r.key, r.value);
        let weight = w.weigh(&r.key, &value);
        if weight == 0 {
            self.overwrite(at, Entry::Resident(Resident { value, weight, ..r }));
        } else {
            self.overwrite(at, Entry::Ghost);
            self.append(RingName::Ghosts, at);
            self.bound_ghosts();
            life.on_evict_cold(state, r.key, value);
        }
    }

    // Makes the cold resident `r` at `at`, which is in no ring, hot.
    fn promote(&mut self, at: u32, r: Resident<K, V>)
        requires sound { Sound self.old (at ∷ []) }
        requires kind { kind_of (entry_at self.old at) ≡ in_ring Cold }
        requires entry { entry_at self.old at ≡ Some (E.Resident r) }
        ensures sound { Sound self.new [] }
        ensures used { NoMoreUsed self.old self.new }
        ensures hot { self.new.hot.len ≡ self.old.hot.len + 1 }
        ensures cold { self.new.cold.len ≡ self.old.cold.len }
        ensures model { Promotes at self.old self.new }
    {
        let hot = Resident {
            state: ResidentState::Hot,
            reads: r.reads.saturating_sub(1),
            ..r
        };
        self.overwrite(at, Entry::Resident(hot));
        self.append(RingName::Hot, at);
    }

    // What the cold hand does with the resident in hand at which it stopped: promotes it, or lets it go. Was it promoted?
    fn leave_cold<W: Weighter<K, V>, L: Lifecycle<K, V>>(
        &mut self,
        at: u32,
        w: &W,
        life: &L,
        state: &mut L::State,
    ) -> bool
        requires sound { Sound self.old (at ∷ []) }
        requires kind { kind_of (entry_at self.old at) ≡ in_ring Cold }
        ensures sound { Sound self.new [] }
        ensures used { NoMoreUsed self.old self.new }
        ensures hot { self.new.hot.len ≤ self.old.hot.len + 1 }
        ensures cold { self.new.cold.len ≡ self.old.cold.len }
        ensures model { LeavesCold (W.weight w.now) (L.life life.now) at self.old self.new result state.old state.new }
    {
        let Some(r) = resident_at(&self.slab, at) else {
            return false;
        };
        if r.reads > 0 {
            self.promote(at, r);
            return true;
        }
        self.evict_cold(at, r, w, life, state);
        false
    }
}

impl<'a, K: Copy, V: Copy> CacheShard<'a, K, V> {
    // The hot hand: lets one resident go, or says no where the ring is empty or wholly pinned.
    pub fn advance_hot<W: Weighter<K, V>, L: Lifecycle<K, V>>(
        &mut self,
        w: &W,
        life: &L,
        state: &mut L::State,
    ) -> bool
        ensures used { NoMoreUsed self.old.layout self.new.layout }
        ensures falls { Falls result self.old.layout self.new.layout }
        ensures cold { self.new.layout.cold.len ≡ self.old.layout.cold.len }
        ensures model { FollowsHand (W.weight w.now) (L.life life.now) hot_hand self.old.layout self.new.layout result state.old state.new }
    {
        match self.layout.take_hot(life) {
            None => false,
            Some(at) => {
                self.layout.evict_hot(at, w, life, state);
                true
            }
        }
    }

    // The hot hand steps while the hot weight is above the target.
    fn cool<W: Weighter<K, V>, L: Lifecycle<K, V>>(&mut self, w: &W, life: &L, state: &mut L::State)
        ensures used { NoMoreUsed self.old.layout self.new.layout }
        ensures hot { self.new.layout.hot.len ≤ self.old.layout.hot.len }
        ensures cold { self.new.layout.cold.len ≡ self.old.layout.cold.len }
        ensures model { FollowsRings (W.weight w.now) (L.life life.now) cooled self.old.layout self.new.layout state.old state.new }
    {
        'steps: loop {
            if self.layout.tally.hot_weight <= self.layout.settings.hot_target() {
                return;
            }
            if !self.advance_hot(w, life, state) {
                return;
            }
        }
    }

    // The place at which the cold hand stops: the first that it does not go past.
    fn cold_stop<L: Lifecycle<K, V>>(&self, life: &L) -> Option<u32>
        ensures { Halted (L.life life.now).pins (ring_places Cold self.now.layout) (slots_in self.now.layout) result }
    {
        let slab = &self.layout.slab;
        slab.ring(self.layout.cold.head, self.layout.cold.len)
            .find(|at| !cold_passes(slab, *at, life))
    }

    // The cold hand: promotes a resident or lets one go; where it can do neither, the hot hand steps instead.
    pub fn advance_cold<W: Weighter<K, V>, L: Lifecycle<K, V>>(
        &mut self,
        w: &W,
        life: &L,
        state: &mut L::State,
    ) -> bool
        ensures used { NoMoreUsed self.old.layout self.new.layout }
        ensures falls { Falls result self.old.layout self.new.layout }
        ensures model { FollowsHand (W.weight w.now) (L.life life.now) cold_hand self.old.layout self.new.layout result state.old state.new }
    {
        match self.cold_stop(life) {
            None => self.advance_hot(w, life, state),
            Some(at) => {
                self.layout.turn_out(RingName::Cold, at);
                if self.layout.leave_cold(at, w, life, state) {
                    self.cool(w, life, state);
                }
                true
            }
        }
    }

    // The cold hand steps while the weight, with that which is to come, is above the capacity.
    pub fn shrink<W: Weighter<K, V>, L: Lifecycle<K, V>>(
        &mut self,
        coming: u32,
        w: &W,
        life: &L,
        state: &mut L::State,
    )
        ensures used { NoMoreUsed self.old.layout self.new.layout }
        ensures model { FollowsRings (W.weight w.now) (L.life life.now) (λ u t. shrunk u coming t) self.old.layout self.new.layout state.old state.new }
    {
        'steps: loop {
            if self.layout.tally.weight() + coming as u64 <= self.layout.settings.capacity() {
                return;
            }
            if !self.advance_cold(w, life, state) {
                return;
            }
        }
    }
}
