// What every state of a run satisfies (specs/), and that each accepted record keeps it (proofs/). There is no code here.
#![tactic(auto)]
