ghost use Rattle.std.specs.Prelude.{◌≡◌};

use interface::Weighter;

// A record that may come in, under its key and the key's hash, with its weight and the weigher that took it.
#[derive(Drop)]
pub struct Arrival<'w, K, V, W: Weighter<K, V>> {
    pub key: K,
    pub hash: u64,
    pub value: V,
    pub weight: u32,
    pub weighter: &'w W,
    ghost weighed: { weight ≡ W.weight weighter.now key value },
}
