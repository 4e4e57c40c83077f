// What is refused before any work: the tests that several entries share, and each entry's order of them.

#![tactic(auto)]

// refusals 1 to 5, that several entries share
pub mod links;
// the orders of refusals of the answers
pub mod chains;
// the orders of refusals of build and check
pub mod orders;
