// Offers of blocks, as values and as frames.

#![tactic(auto)]

pub mod answer;
mod frame_verdict;
pub mod offer;
mod verdict;
