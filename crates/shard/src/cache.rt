use crate::cache_shard::CacheShard;

// A cache over a borrowed slice of slots. Weigher, lifecycle and request state come with each call that uses them, and may
// differ from call to call.
#[derive(Drop)]
pub struct Cache<'a, K: Copy, V: Copy> {
    pub(crate) shard: CacheShard<'a, K, V>,
}
