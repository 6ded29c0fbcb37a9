// No code: the plain pair of document 01 over any list of calls, and what it shows of the runs (specs/ and proofs/).
#![tactic(auto)]
