// What uppers leave above f: the shares, of which the least is the margin, and u − f(u). Each function asks what an accepted delivery gives.
#![tactic(auto)]

pub mod gap; // gap.rt: u − f(u)
pub mod margin; // margin.rt: the margin
