// Plans: the transfers of a cheapest plan, written into the caller's room, degree by degree.
#![tactic(auto)]

mod entry;
mod planner;
mod transfers;

pub use entry::{Done, Written, plan, write_plan};
pub use transfers::{OUTSIDE, Transfer};
