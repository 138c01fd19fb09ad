ghost use Rattle.std.specs.Prelude.{◌≡◌, None};

// One slot: an item, and the links that pass through the slot's place. A link that is the number of slots means
// that there is none: memory is fixed, and an Option<u32> would take twice the room of a link.
#[derive(Clone, Copy)]
pub struct Slot<T> {
    // the first place in the chain of the hash bucket with this slot's number
    pub bucket: u32,
    // the next place in the chain of this slot's own hash
    pub chain: u32,
    // the next place in the ring, or in the free list
    pub next: u32,
    // the place before in the ring
    pub prev: u32,
    // the hash under which the slot was entered
    pub hash: u64,
    // none exactly where the slot is vacant
    pub item: Option<T>,
}

impl<T: Copy> Slot<T> {
    // A slot to make arrays of: `[Slot::vacant(); 8]`.
    pub fn vacant() -> Slot<T>
        ensures { result ≡ record { bucket = 0; chain = 0; next = 0; prev = 0; hash = 0; item = None } }
    {
        Slot {
            bucket: 0,
            chain: 0,
            next: 0,
            prev: 0,
            hash: 0,
            item: None,
        }
    }
}
