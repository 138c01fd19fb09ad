use crate::guarded::{after, append, enter, first, free, item, next_of, start, take, unlink};
use crate::leaving::{both_entered, both_linked, first_leaves};
use ring_slab::linked_slab::LinkedSlab;
use ring_slab::slots::Slot;
use std::test::Fail;

#[test]
fn no_slots(rt: HostRuntime) {
    let mut slots: [Slot<u32>; 0] = [];
    let mut slab = LinkedSlab::new(&mut slots);
    assert_eq!(rt; [take(&mut slab, 7), first(&slab, 7)], [None, None]);
}

#[test]
fn one_slot(rt: HostRuntime) {
    let mut slots = [Slot::vacant(); 1];
    let mut slab = LinkedSlab::new(&mut slots);
    assert_eq!(rt; [take(&mut slab, 7), take(&mut slab, 8)], [Some(0), None]);
    assert_eq!(rt;
        [start(&mut slab, 0), next_of(&slab, 0), unlink(&mut slab, 0)],
        [Some(0), Some(0), None]
    );
    assert_eq!(rt; [free(&mut slab, 0), item(&slab, 0)], [Some(7), None]);
}

#[test]
fn rings_side_by_side(rt: HostRuntime) {
    let mut slots = [Slot::vacant(); 3];
    let mut slab = LinkedSlab::new(&mut slots);
    assert_eq!(rt;
        [
            start(&mut slab, 0),
            start(&mut slab, 1),
            append(&mut slab, 2, 0),
        ],
        [Some(0), Some(1), Some(0)]
    );
    assert_eq!(rt;
        [next_of(&slab, 0), next_of(&slab, 1), next_of(&slab, 2)],
        [Some(2), Some(1), Some(0)]
    );
    assert_eq!(rt;
        [unlink(&mut slab, 0), next_of(&slab, 2), next_of(&slab, 1)],
        [Some(2), Some(2), Some(1)]
    );
}

#[test]
fn emptied_and_refilled(rt: HostRuntime) {
    let mut slots = [Slot::vacant(); 2];
    let mut slab = LinkedSlab::new(&mut slots);
    assert_eq!(rt;
        [
            take(&mut slab, 10),
            take(&mut slab, 11),
            take(&mut slab, 12),
        ],
        [Some(0), Some(1), None]
    );
    assert_eq!(rt;
        [free(&mut slab, 0), free(&mut slab, 1), item(&slab, 1)],
        [Some(10), Some(11), None]
    );
    assert_eq!(rt;
        [take(&mut slab, 13), take(&mut slab, 14), item(&slab, 0)],
        [Some(1), Some(0), Some(14)]
    );
}

#[test]
fn newcomers_stand_behind_the_first(rt: HostRuntime) {
    let mut slots = [Slot::vacant(); 3];
    let mut slab = LinkedSlab::new(&mut slots);
    enter(&mut slab, 0, 9);
    enter(&mut slab, 1, 9);
    enter(&mut slab, 2, 9);
    assert_eq!(rt;
        [
            first(&slab, 9),
            after(&slab, 0),
            after(&slab, 2),
            after(&slab, 1),
        ],
        [Some(0), Some(2), Some(1), None]
    );
}

#[test]
fn a_slot_too_many(rt: HostRuntime) -> Result<(), Fail> {
    let mut slots = vec![in rt.alloc(); Slot::vacant(); 1_048_577]?;
    let mut slab = LinkedSlab::new(slots.as_mut_slice());
    assert_eq!(rt; slab.capacity(), 1_048_576);
    assert_eq!(rt; take(&mut slab, 7), Some(0));
    Ok(())
}

#[test]
fn the_second_moves_up(rt: HostRuntime) {
    assert_eq!(rt; first_leaves(), [Some(0), Some(1)]);
}

#[test]
fn the_places_of_a_chain(rt: HostRuntime) {
    assert_eq!(rt; both_entered(), [Some(0), Some(1), None]);
}

#[test]
fn the_places_of_a_ring(rt: HostRuntime) {
    assert_eq!(rt; both_linked(), [Some(0), Some(1), None]);
}
