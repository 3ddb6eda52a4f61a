// The end of a reading: the ledger's five readings, as text.

#![tactic(auto)]

pub mod closing;
