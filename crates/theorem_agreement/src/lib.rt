// The board's answers are the rule book's, and what that says of timetables: demands 2 and 3. Definitions (specs/) and theorems (proofs/).
// Nothing in it is run. It may use every crate up to call_board, call_report and theorem_demands: it alone holds the board to the rule book.
#![tactic(auto)]
