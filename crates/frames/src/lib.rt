// Frames (document 01: slips) of a run: where each stands, what it says, and whether it is due. Each kind has a file.

#![tactic(auto)]

mod balances;
pub mod block;
pub mod frame;
pub mod header;
pub mod step;
