// The text of a reading (document 01, "One reading, whole"), written into the caller's buffer.

#![tactic(auto)]

pub mod lines;
pub mod tail;
mod write;
