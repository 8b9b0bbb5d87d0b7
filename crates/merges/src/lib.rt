// Document 02, k: the order in which the cores' records are merged does not matter. There is no code here.
#![tactic(auto)]
