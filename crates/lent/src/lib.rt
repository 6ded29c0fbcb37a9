// The lent register.
#![tactic(auto)]

pub mod filings; // filings.rt: the filings on a lent register
