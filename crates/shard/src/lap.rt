// What the hot hand meets: a pinned resident or one that had a read, which it goes past, or one at which it stops.
#[derive(Clone, Copy)]
pub enum Met {
    Pinned,
    Unpinned,
    Stop,
}

// How a lap of the hot hand ends: at a place, or past all, of which one was not pinned, or all were.
#[derive(Clone, Copy)]
pub enum Lap {
    Stop(u32),
    Unpinned,
    Pinned,
}
