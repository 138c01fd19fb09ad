// The settings of a cache: its capacity, the hot target and the ghost bound.

#![tactic(auto)]

pub mod options;
#[cfg(test)]
mod tests;

pub use options::Settings;
