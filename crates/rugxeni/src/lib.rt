// The boundary of the static library: the ledger's calls over numbers and lent slices, for programs in Rust or C.

#![tactic(auto)]

pub mod accounts;
pub mod framing;
pub mod loading;
pub mod log;
mod numbers;
pub mod offering;
mod reading;
pub mod registers;
mod replies;
pub mod reporting;
pub mod settlements;
pub mod share;
pub mod writing;
