// What a slot holds.

// The part of the cache that a resident belongs to, or that a placeholder's record will enter.
#[derive(Clone, Copy)]
pub enum ResidentState {
    Hot,
    Cold,
}

// A record in the cache: its key, the weight last taken, and its reads, 0 to 2.
#[derive(Clone, Copy)]
pub struct Resident<K, V> {
    pub key: K,
    pub weight: u32,
    pub value: V,
    pub state: ResidentState,
    pub reads: u8,
}

// The place of a record that a ticket was given out for.
#[derive(Clone, Copy)]
pub struct Placeholder<K> {
    pub key: K,
    pub state: ResidentState,
    pub ticket: u64,
}

// A ghost is known by the hash that its slot keeps.
#[derive(Clone, Copy)]
pub enum Entry<K, V> {
    Resident(Resident<K, V>),
    Placeholder(Placeholder<K>),
    Ghost,
}
