// The index: its public entries, with no requirement on what is lent. Each contract is one record of the crate rules.

#![tactic(auto)]

// direct, stored and class answer
pub use answers::{class_answer, direct, stored};
// pairs of a class and sequence lookup
pub use parts::{class_bounds, class_pairs, lookup, lookup_bounds};
// build and check
pub use tables::{build, check};
