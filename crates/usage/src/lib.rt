// Document 02, k: with exclusive acquires only, a fault is a broken rule of document 002. There is no code here.
#![tactic(auto)]
