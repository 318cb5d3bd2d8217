// What is owed of the rule book: the proving table, and the abstract board that stands beside every run. Definitions (specs/) and theorems
// (proofs/). Nothing in it is run.
// It may use the readers' definitions, spec_plain, spec_rulebook, base_lists and spec_stn, and none of the
// board's code: so a wrong definition meets the proving table.
#![tactic(auto)]
