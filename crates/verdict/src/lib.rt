// No code: the verdict on a delivery with its model, as definitions and theorems (specs/ and proofs/).
#![tactic(auto)]
