// One shard of a cache over a borrowed slice of slots.

#![tactic(auto)]

pub mod access;
pub mod arrival;
pub mod cache;
pub mod cache_shard;
pub mod counting;
pub mod entry;
pub mod found;
pub mod hands;
pub mod insert;
pub mod lap;
pub mod layout;
pub mod public;
pub mod residents;
pub mod ring;
pub mod search;
pub mod strategy;
pub mod tally;
