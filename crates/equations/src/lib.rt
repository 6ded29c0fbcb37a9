// The equations of an accepted model, each over its row's records only. These functions serve the crates above: they ask what an accepted model and
// a right layout give.
#![tactic(auto)]

pub mod chances; // chances.rt: f at one entry
mod sums; // sums.rt: the sums over the states and over a row
pub mod steps; // steps.rt: the right side of the mean steps' inequality
