// A linked slab over a borrowed slice of slots: rings of places, a free list, and hash chains, for every type of item
// that can be copied.

#![tactic(auto)]

pub mod chain;
pub mod field;
pub mod laws;
pub mod linked_slab;
mod ring;
pub mod slots;
mod vacancy;
pub mod walk;
mod write;
