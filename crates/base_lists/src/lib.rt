// What loops over a slice leave behind, as functions on lists: definitions (specs/) and laws (proofs/). Nothing in it is run.
// It may use no other crate.
#![tactic(auto)]
