// The entry list of a level-k table. Narrow contracts; the entries of the index do the refusing.

#![tactic(auto)]

pub mod listing; // the entry list, written or compared
