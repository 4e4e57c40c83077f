// The level-k table among the levels, and what build and check hand to the crates below.

#![tactic(auto)]

ghost use Rattle.std.specs.Prelude.{◌≡◌};
ghost use Rattle.rules.specs.Levels.{level_of};
ghost use Rattle.top.specs.Tables.{Standing};

use twins::level::Level;

// How many items, labels and levels.
#[derive(Clone, Copy)]
pub struct Sizes {
    pub n: usize,
    pub labels: usize,
    pub k: usize,
}

// Stored tables.
#[derive(Clone, Copy)]
pub struct Tables<'a> {
    pub levels: &'a [u32],
    pub starts: &'a [u32],
    pub order: &'a [u32],
    pub entries: &'a [u32],
}

// The numbers of level k.
pub fn top_of(levels: &[u32], n: usize, k: usize) -> &[u32]
    requires { Standing n k levels.now }
    ensures { result.now ≡ level_of n levels.now k }
{
    Level::of(n, levels, k).numbers
}
