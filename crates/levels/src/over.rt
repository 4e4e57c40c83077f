// A level over those below: numbered or checked, or taken from the level below where it repeats it.
ghost use Rattle.std.specs.Prelude.{◌≡◌, true, ◌-◌};
ghost use Rattle.rules.specs.Levels.{level_of};
ghost use Rattle.twins.specs.Standing.{Stands, Ready};
ghost use Rattle.numbering.specs.Needs.{Numbered, Faulty};
ghost use Rattle.levels.specs.Repeat.{Repeats, Topped};

use super::repeat::{copy_below, repeats, same_below};
use faults::check_level;
use numbering::number::number_level;

// Level i is numbered over the levels below, where top is how many classes the level below has. Above two levels that are the same it is
// a copy. Answers how many classes it has.
pub fn next_level(n: usize, i: usize, levels: &mut [u32], area: &mut [u8], top: u32) -> u32
    requires { (Ready n i levels.old area.old) × (Topped n i levels.old area.old top) }
    ensures { Numbered n i levels.old area.old result levels.new area.new }
{
    if repeats(n, i, levels) {
        copy_below(n, i, levels);
        return top;
    }
    number_level(n, i, levels, area)
}

// Level i repeats the two levels below it.
fn repeats_on(n: usize, i: usize, levels: &[u32]) -> bool
    requires { Stands n levels.now i }
    ensures { result ≡ true → (Repeats n i levels.now) × (level_of n levels.now i ≡ level_of n levels.now (i - 1)) }
{
    if !repeats(n, i, levels) {
        return false;
    }
    same_below(n, i, levels)
}

// The first faulty position of level i. Where the two levels below are the same, so is a right level i: it is accepted without
// a search if it is, and otherwise the search finds the fault.
pub fn level_fault(n: usize, i: usize, levels: &[u32], area: &mut [u8]) -> Option<usize>
    requires { Ready n i levels.now area.old }
    ensures { Faulty n i levels.now area.old result area.new }
{
    if repeats_on(n, i, levels) {
        return None;
    }
    check_level(n, i, levels, area)
}
