// The reading of a run as text.

#![tactic(auto)]

pub mod report;
mod whole;
