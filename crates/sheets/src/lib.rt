// The sheet in its lent cells: what it says of accounts and transactions, their parts, and operations on registers.

#![tactic(auto)]

pub mod operations;
pub mod parts;
pub mod sheet;
