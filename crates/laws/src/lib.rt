// Laws that the proofs of several crates cite: on tests (proofs/OfTests.antt) and on lists (proofs/OfLists.antt). There is no code here.
#![tactic(auto)]
