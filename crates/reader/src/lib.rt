// No code: what a reader of a printout learns of the runs (specs/ and proofs/).
#![tactic(auto)]
