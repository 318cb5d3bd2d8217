// What an offer comes to before timetables are looked at: a refusal, or the rules (b) to (e) and of its due time. It only reads: what stands in a line
// at the moment of an allocation is looked up in the words of the board (part_boardwords) and among the offer's earlier allocations.
// It may use base_rulings, spec_plain, part_lines, base_lists, part_allocations, part_boardwords and part_jobwords; it knows neither bytes nor a table.
#![tactic(auto)]

mod drafting; // 14, and the rules (b) to (e) and of a due time
mod moment; // the lines at the moment of an allocation
mod placing; // the allocations of an offer placed: 15, 16, and the rules (d)

pub use drafting::draft;
