use ring_slab::linked_slab::LinkedSlab;
use ring_slab::slots::Slot;

// Two places are entered under one hash, and the first of their chain leaves: the first before and after.
pub fn first_leaves() -> [Option<u32>; 2] {
    let mut slots = [Slot::vacant(); 2];
    let mut slab = LinkedSlab::new(&mut slots);
    let _ = slab.take(10u32);
    let _ = slab.take(11);
    slab.enter(0, 9);
    slab.enter(1, 9);
    let before = slab.first(9);
    slab.leave(0);
    [before, slab.first(9)]
}

// Two places are entered under one hash: the places of their chain, in order.
pub(crate) fn both_entered() -> [Option<u32>; 3] {
    let mut slots = [Slot::vacant(); 2];
    let mut slab = LinkedSlab::new(&mut slots);
    let _ = slab.take(10u32);
    let _ = slab.take(11);
    slab.enter(0, 9);
    slab.enter(1, 9);
    let mut chain = slab.chain(9);
    [chain.next(), chain.next(), chain.next()]
}

// Two places are linked into one ring: the places of the ring, once round.
pub(crate) fn both_linked() -> [Option<u32>; 3] {
    let mut slots = [Slot::vacant(); 2];
    let mut slab = LinkedSlab::new(&mut slots);
    let _ = slab.take(10u32);
    let _ = slab.take(11);
    let _ = slab.link(0, None);
    let _ = slab.link(1, Some(0));
    let mut ring = slab.ring(Some(0), 2);
    [ring.next(), ring.next(), ring.next()]
}
