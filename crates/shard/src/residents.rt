// Taking an entry out of its list, and putting a resident where it belongs. `r` is what the caller read at `at`, which is
// asked: a function that read it again would have a branch that can't be taken.
ghost use Rattle.std.specs.Prelude.{◌≡◌, [], ◌∷◌, Some};
ghost use Rattle.shard.specs.Layout.{entry_at, Sound, SameEntries};
ghost use Rattle.shard.specs.Steps.{SameTerms};
ghost use Rattle.shard.specs.Inserts.{TakesOut, Enters, Expels, Resettles, ring_for};

use crate::cache_shard::CacheShard;
use crate::entry::{Entry, Resident, ResidentState};
use crate::layout::Layout;
use crate::ring::RingName;

// The ring of a state.
impl From<ResidentState> for RingName {
    ghost from_gives = { λ state name. name ≡ ring_for state };

    fn from(state: ResidentState) -> RingName {
        match state {
            ResidentState::Hot => RingName::Hot,
            ResidentState::Cold => RingName::Cold,
        }
    }
}

impl<'a, K: Copy, V: Copy> Layout<'a, K, V> {
    // Takes the resident `r` at `at` out of its ring, if it is in one.
    pub fn take_out(&mut self, at: u32, r: Resident<K, V>)
        requires sound { Sound self.old [] }
        requires here { entry_at self.old at ≡ Some (Entry.Resident r) }
        ensures sound { Sound self.new (at ∷ []) }
        ensures entries { SameEntries self.old self.new }
        ensures model { TakesOut at r self.old self.new }
    {
        if r.weight == 0 {
            return;
        }
        self.delete(RingName::from(r.state), at);
    }

    // Puts the resident `r`, which is in hand, into the ring of its state; weightless, it stays off the rings.
    pub fn enter(&mut self, at: u32, r: Resident<K, V>)
        requires sound { Sound self.old (at ∷ []) }
        requires here { entry_at self.old at ≡ Some (Entry.Resident r) }
        ensures sound { Sound self.new [] }
        ensures entries { SameEntries self.old self.new }
        ensures model { Enters at r self.old self.new }
    {
        if r.weight == 0 {
            return;
        }
        self.append(RingName::from(r.state), at);
    }
}

impl<'a, K: Copy, V: Copy> CacheShard<'a, K, V> {
    // Deletes the resident `r` at `at` and frees its slot.
    pub fn expel(&mut self, at: u32, r: Resident<K, V>)
        requires { entry_at self.old.layout at ≡ Some (Entry.Resident r) }
        ensures terms { SameTerms self.old.layout self.new.layout }
        ensures model { Expels at r self.old.layout self.new.layout }
    {
        self.layout.take_out(at, r);
        self.layout.release(at);
    }

    // Writes `new` over the resident `old` at `at`, which is of the same state. A weight that was 0 and is more now appends it
    // to its ring; one that was more and is 0 now turns it out.
    #[tactic(auto, using(crate::proofs::Props::sound_of, crate::proofs::Inserting::there, crate::proofs::Resettling::terms_before))]
    pub fn resettle(&mut self, at: u32, old: Resident<K, V>, new: Resident<K, V>)
        requires here { entry_at self.old.layout at ≡ Some (Entry.Resident old) }
        requires state { new.state ≡ old.state }
        ensures terms { SameTerms self.old.layout self.new.layout }
        ensures model { Resettles at new self.old.layout self.new.layout }
    {
        if old.weight == 0 {
            self.layout.overwrite(at, Entry::Resident(new));
            if new.weight == 0 {
                return;
            }
            self.layout.append(RingName::from(new.state), at);
            return;
        }
        if new.weight == 0 {
            self.layout.turn_out(RingName::from(old.state), at);
            self.layout.overwrite(at, Entry::Resident(new));
            return;
        }
        self.layout.overwrite(at, Entry::Resident(new));
    }
}
