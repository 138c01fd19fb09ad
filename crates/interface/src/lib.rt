// What a cache asks of its keys, its weigher and its lifecycle. Each interface says by ghost members what an
// implementation means; code that is generic in it knows nothing else.

#![tactic(auto)]

ghost use Rattle.std.specs.Prelude.{◌≡◌, ℕ, Bool, true, ◌||◌};
ghost use Rattle.interface.specs.Meaning.{Life, idle};

pub mod numbers;
pub mod refusal;
#[cfg(test)]
mod tests;

// A key. Equality is an equivalence, and equal keys have equal hashes. Not `Eq` and `Hash`: keys may be equal in
// another way than the values of their type, and the hash is one number of 64 bits.
pub trait Key: Copy {
    // whether two keys are equal
    ghost same: { Self → Self → Bool };

    // the hash of a key, of 64 bits
    ghost code: { Self → ℕ };

    // Is this the same key as `other`?
    fn equal(&self, other: &Self) -> bool
        ensures { result ≡ same self.now other.now };

    // The 64-bit hash.
    fn hash(&self) -> u64
        ensures { result ≡ code self.now };

    ghost reflexive: { (x : Self) → same x x ≡ true };

    ghost symmetric: { (x y : Self) → same x y ≡ true → same y x ≡ true };

    ghost transitive: { (x y z : Self) → same x y ≡ true → same y z ≡ true → same x z ≡ true };

    ghost hashes: { (x y : Self) → same x y ≡ true → code x ≡ code y };
}

// What a record weighs under its key.
pub trait Weighter<K, V> {
    ghost weight: { Self → K → V → ℕ };

    // The weight of `val` under `key`; 0 is a weight like any other.
    fn weigh(&self, key: &K, val: &V) -> u32
        ensures { result ≡ weight self.now key.now val.now };
}

// What happens to records that are about to leave. The request state belongs to the caller, who lends it to
// each call.
pub trait Lifecycle<K, V> {
    type State;

    ghost life: { Self → Life Self.State K V };

    // Must this record stay? It is asked of the record, and answers the same each time.
    fn is_pinned(&self, key: &K, val: &V) -> bool
        ensures { result ≡ (life self.now).pins key.now val.now };

    // The trim: a last chance to make the record lighter. At weight 0 it stays.
    fn before_evict(&self, state: &mut Self::State, key: &K, val: V) -> V
        ensures state { state.new ≡ ((life self.now).trim state.old key.now val).0 }
        ensures val { result ≡ ((life self.now).trim state.old key.now val).1 };

    // A record leaves the hot part.
    fn on_evict_hot(&self, state: &mut Self::State, key: K, val: V)
        ensures { state.new ≡ (life self.now).hot state.old key val };

    // A record leaves the cold part, or was never let in.
    fn on_evict_cold(&self, state: &mut Self::State, key: K, val: V)
        ensures { state.new ≡ (life self.now).cold state.old key val };
}

// The lifecycle that does nothing.
#[derive(Clone, Copy)]
pub struct Unhooked;

impl<K: Copy + Drop, V: Copy + Drop> Lifecycle<K, V> for Unhooked {
    type State = ();

    ghost life = { λ _. idle };

    fn is_pinned(&self, _key: &K, _val: &V) -> bool {
        false
    }

    fn before_evict(&self, _state: &mut (), _key: &K, val: V) -> V {
        val
    }

    fn on_evict_hot(&self, _state: &mut (), _key: K, _val: V) {}

    fn on_evict_cold(&self, _state: &mut (), _key: K, _val: V) {}
}

// Pins one key as well, and passes all else on to the lifecycle that it stands on.
#[derive(Clone, Copy)]
pub struct Hold<K, L> {
    pub key: K,
    pub inner: L,
}

impl<K: Key, V, L: Lifecycle<K, V>> Lifecycle<K, V> for Hold<K, L> {
    type State = L::State;

    ghost life = { λ h. record (L.life h.inner) { pins = λ k v. K.same h.key k || (L.life h.inner).pins k v } };

    fn is_pinned(&self, key: &K, val: &V) -> bool {
        self.key.equal(key) || self.inner.is_pinned(key, val)
    }

    fn before_evict(&self, state: &mut L::State, key: &K, val: V) -> V {
        self.inner.before_evict(state, key, val)
    }

    fn on_evict_hot(&self, state: &mut L::State, key: K, val: V) {
        self.inner.on_evict_hot(state, key, val);
    }

    fn on_evict_cold(&self, state: &mut L::State, key: K, val: V) {
        self.inner.on_evict_cold(state, key, val);
    }
}
