// The two caches of a sewer-inspection van, by their kinds. The length cache holds a record for each pipe
// length under its number, and writes corrected records back as they leave; the code cache holds the
// wording of each observation code under its text.

#![tactic(auto)]

pub mod code;
pub mod first_rows;
pub mod keys;
pub mod length;
#[cfg(test)]
mod tests;
pub mod weight;
pub mod write_back;
