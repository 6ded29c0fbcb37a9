// The live marks of an accepted model. A row's marked exits are the bits of one byte, so that a round works on all exits of a row at once. These
// functions serve the crates above: each asks what an accepted model gives.
#![tactic(auto)]

pub mod exits; // exits.rt: exits as bits, and those that a row's records give
pub mod rounds; // rounds.rt: rounds of marks, until none changes anything
