// Admission of a block: the refusals 5 and 8 to 17 but 16, in document 01's order.

#![tactic(auto)]

pub mod block;
pub mod citations;
mod cites;
mod entries;
pub mod replies;
