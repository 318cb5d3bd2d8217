// What writes lines where they lie, in the words of a board (part_boardwords, specs/Layout): they are tidied and thinned out, and an accepted offer's uses
// are put into them.
// It may use spec_plain, base_lists, part_lines, part_allocations and part_boardwords, and rules on nothing.
#![tactic(auto)]

mod inserting; // the uses of an offer put into their lines
mod thinning; // what stays when points leave
mod tidying; // 0 in places not in use

pub use inserting::insert_all;
pub use thinning::stay_lines;
pub use tidying::tidy_lines;
