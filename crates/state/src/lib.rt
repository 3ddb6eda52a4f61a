// The ledger's state: its own numbers, the least lengths of the buffers that hold the rest, and the sheet loaded frame by frame.

#![tactic(auto)]

pub mod ledger;
pub mod lengths;
pub mod load;
