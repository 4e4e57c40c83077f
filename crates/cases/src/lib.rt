// Library cases as text: a line of standard input becomes a case, and a case with what its entry returned a line of standard output
// (docs/TRIAL.md).

#![tactic(auto)]

// why no case was read
pub mod faults;
// the bytes and the numbers of the input
pub mod source;
// the bytes of the output
pub mod output;
// what a case of each letter has
pub mod letters;
// a lent list
pub mod lists;
// a case: its numbers and its lists
pub mod case;
// from a line to a case, up to the first fault
pub mod reading;
// from a line to a case, read on behind a fault
pub mod reading_on;
// from a case to a line
pub mod printing;
