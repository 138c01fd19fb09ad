// The text of a survey: how a line comes in byte by byte, and what it says.

#![tactic(auto)]

mod digits;
pub mod faults;
pub mod lines;
pub mod statements;
mod words;
