// The rule book of document 01: definitions (specs/), and the laws that it forgets no rule and holds due times (proofs/). Nothing in it is run.
// It may use base_words, base_rulings, read_plant, read_offer and spec_plain, of each the definitions alone; no table, and none of the board's code.
#![tactic(auto)]
