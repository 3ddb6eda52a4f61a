// Frames (document 01: slips) of the header, the balances and blocks, written into the caller's buffer. Each kind has a
// file; a transaction's writer is the crate transactions_write.

#![tactic(auto)]

pub mod balances;
pub mod block;
pub mod header;
mod lists;
