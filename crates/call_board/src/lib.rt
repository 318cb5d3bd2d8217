// What the board's calls have in common: the definitions of their answers, and of the words that they leave, and the laws of a sound board that
// their proofs share; and the first of them, fresh. Each of the others has a crate of its own.
// It may use the parts of the board, and the definitions of the readers and of the rule book; its code reads no plant file and no offer.
#![tactic(auto)]

mod starting; // a fresh board

pub use starting::fresh;
