// An accepted block: stored at the end of its instance's log, its parts judged. An inner layer: what it requires, the calls for offers meet.

#![tactic(auto)]

pub mod accept;
mod judge;
mod store;
