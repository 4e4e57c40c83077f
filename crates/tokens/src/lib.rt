// The tokens of a query: what each byte says, and the first fault of a list with its place.

#![tactic(auto)]

// tokens to a query, or the first fault
pub mod reading;
