// A ring of slots: its head, and how many slots it has.
#[derive(Clone, Copy)]
pub struct Ring {
    pub head: Option<u32>,
    pub len: u32,
}

// The three rings of a shard.
#[derive(Clone, Copy)]
pub enum RingName {
    Hot,
    Cold,
    Ghosts,
}
