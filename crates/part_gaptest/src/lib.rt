// The test of a gap table. A board comes from outside, so its cells may hold any numbers; whether they are a good table is looked at in every call.
// It may use part_gaps, spec_stn and base_lists, and decides nothing else.
#![tactic(auto)]

mod testing; // whether cells are a good table
mod triangle; // whether no entry exceeds the sum by way of a third point

pub use testing::is_gap_table;
