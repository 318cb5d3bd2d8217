// Closed tables, the minimal network of document 01's gap table: definitions (specs/) and laws (proofs/). Nothing in it is run.
// It may use spec_plain alone: neither the rule book nor an array is known here.
#![tactic(auto)]
