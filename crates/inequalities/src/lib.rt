// The tests 23 to 27 of a delivery's numbers. These functions serve the check of a delivery: each asks what an accepted model and a right layout
// give.
#![tactic(auto)]

pub mod marks; // marks.rt: the tests 23 and 25, number by number
pub mod means; // means.rt: the test 27
mod missed; // missed.rt: the outcome of an inequality that may be missed
pub mod sides; // sides.rt: the tests 24 and 26, which need f
