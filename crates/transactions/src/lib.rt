// The body of a transaction (document 01, the kinds table, kind 3): its lists, and its check.

#![tactic(auto)]

pub mod check;
pub mod lists;
