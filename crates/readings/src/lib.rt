// The readings of the full view: accounts, registers, settlements, share and log.

#![tactic(auto)]

pub mod accounts;
mod full;
pub mod log;
pub mod registers;
mod room;
mod settled;
pub mod settlements;
pub mod share;
