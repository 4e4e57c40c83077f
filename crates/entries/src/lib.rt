// The entries of one relation: counted, written and compared. Narrow contracts; the crates above see to what they ask.

#![tactic(auto)]

pub mod emit; // the entries of a relation, row by row
pub mod list; // a list of entries, one more at a time
