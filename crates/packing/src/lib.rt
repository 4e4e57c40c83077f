// The bits of a byte, and numbers of two bytes in a lent list of bytes.

#![tactic(auto, unfolding(rules::specs::Bits::bit_at, crate::specs::Words::word, crate::specs::Words::set_word))]

pub mod bits; // one bit, and whether it is set
pub mod words; // two bytes as a number, the low byte first
