// The level tables, one over the other, and levels that repeat.

#![tactic(auto)]

pub mod all;
mod over;
mod repeat;
