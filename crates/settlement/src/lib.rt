// Settlement in a view (document 01, "Settlement in a view"): contracts in log order, then payments.

#![tactic(auto)]

mod contracts;
mod counts;
pub mod rows;
pub mod settle;
pub mod status;
