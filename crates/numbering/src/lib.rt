// Numbering a level: chains of positions that share a bucket, and the numbers of the pairs in order of position.

#![tactic(auto)]

pub mod chains;
pub mod number;
