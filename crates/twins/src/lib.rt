// Pairs at one level, by the levels below: step marks, connected pairs, midpoints and their hashes, twins and agreement.

#![tactic(auto)]

pub mod agree;
pub mod halves;
pub mod hashes;
pub mod kept;
pub mod level;
pub mod marks;
pub mod near;
pub mod over;
pub mod skips;
pub mod splits;
pub mod steps;
