// Escrow: amounts and part outcomes in a view, and the share (document 01, "Rules of the ledger").

#![tactic(auto)]

pub mod amounts;
pub mod cells;
pub mod outcome;
pub mod share;
