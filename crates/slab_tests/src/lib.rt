// Runs of the linked slab on small slices, and one on a slice with a slot too many.

#![tactic(auto)]

#[cfg(test)]
mod guarded;
pub mod leaving;
#[cfg(test)]
mod tests;
