// Eight relations a block of the working area. Narrow contracts; the crates above see to what they ask.

#![tactic(auto)]

pub mod blocks; // bits, rows and blocks, and a relation followed by eight
pub mod marks; // the steps of the edges, and the identity
