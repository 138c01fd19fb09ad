use crate::entry::Entry;

// What a key finds, and where.
#[derive(Clone, Copy)]
pub struct Found<K, V> {
    pub at: u32,
    pub entry: Entry<K, V>,
}

// What a walk along the chain of a hash meets.
#[derive(Clone, Copy)]
pub enum Sighting {
    // the resident or placeholder of the key
    Keyed(u32),
    // one ghost of the hash
    Ghost(u32),
    // several ghosts of the hash
    Ghosts,
}
