// What the van makes of a survey, line by line: what the box would do with each pipe length, the corrected
// records to write back, and the totals at the end.

#![tactic(auto)]

pub mod refused;
pub mod session;
#[cfg(test)]
mod tests;
pub mod totals;
pub mod verdicts;
