// The class lists of a level-k table, starts and order, written. Narrow contracts; the entries of the index do the refusing.

#![tactic(auto)]

pub mod sort; // starts and order by counting sort
