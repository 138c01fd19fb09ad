// The laws of a slab. Each stands as the contract of a function that does nothing.
ghost use Rattle.ring_slab.specs.Laws.{ReadOff, Asked, ItemsApart, Renamed};

use crate::linked_slab::LinkedSlab;
use crate::slots::Slot;

// What a slab holds can be read off its slots.
pub fn read_off<T: Copy>(_slab: &LinkedSlab<'_, T>)
    ensures { ReadOff _slab.now }
{}

// What the calls ask follows from what the slab holds.
pub fn asked<T: Copy>(_slab: &LinkedSlab<'_, T>)
    ensures { Asked _slab.now }
{}

// Items can be changed in place, and what the slab holds stays.
pub fn items_apart<T: Copy>(_slots: &[Slot<T>])
    ensures { ItemsApart _slots.now }
{}

// A ring can be named from any of its places on, and the other places in any order.
pub fn renamed<T: Copy>(_slots: &[Slot<T>])
    ensures { Renamed _slots.now }
{}
