// How the least cycle is found (specs/), and that the cycle found so is the least (proofs/). There is no code here.
#![tactic(auto)]
