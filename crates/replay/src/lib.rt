// A run's sheet opened, and its blocks offered one after the other, each with its line.
// An inner layer: `report` calls both, with buffers that suffice for every sheet.

#![tactic(auto)]

mod answers;
pub mod blocks;
pub mod opening;
