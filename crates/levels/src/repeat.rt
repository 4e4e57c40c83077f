// Levels that repeat. Where condition C looks at the level directly below only, a level is a function of it, so that above two equal
// levels all are the same. Of a rule that looks at other levels, nothing is taken to repeat.
ghost use Rattle.std.specs.Prelude.{◌≡◌, true, ◌*◌, ◌-◌, ◌<◌};
ghost use Rattle.rules.specs.Levels.{level_of};
ghost use Rattle.rules.specs.Writing.{put};
ghost use Rattle.twins.specs.Standing.{Stands, base};
ghost use Rattle.levels.specs.Repeat.{LooksBelow, LooksAlike, Repeats};

use twins::level::Level;
use twins::splits::{first_level, second_level, splits};

// Level i looks at the level directly below only.
fn looks_below(i: usize) -> bool
    requires { 0 < i }
    ensures { result ≡ true → LooksBelow i }
{
    let count = splits(i);
    for c in 0..count {
        if first_level(i, c) != i - 1 {
            return false;
        }
        if second_level(i, c) != i - 1 {
            return false;
        }
    }
    true
}

// Level i looks at the level below it as that at the one below it.
fn looks_alike(i: usize) -> bool
    requires { 1 < i }
    ensures { result ≡ true → LooksAlike i }
{
    if !looks_below(i) {
        return false;
    }
    if !looks_below(i - 1) {
        return false;
    }
    splits(i) == splits(i - 1)
}

// Level i is the same as the level below it.
pub fn same_below(n: usize, i: usize, levels: &[u32]) -> bool
    requires { (Stands n levels.now i) × (1 < i) }
    ensures { result ≡ true → level_of n levels.now i ≡ level_of n levels.now (i - 1) }
{
    Level::of(n, levels, i).numbers == Level::of(n, levels, i - 1).numbers
}

// The two levels below level i are the same, and so is what they are looked at for.
pub fn repeats(n: usize, i: usize, levels: &[u32]) -> bool
    requires { Stands n levels.now i }
    ensures { result ≡ true → Repeats n i levels.now }
{
    if i < 3 {
        return false;
    }
    if !looks_alike(i) {
        return false;
    }
    same_below(n, i - 1, levels)
}

// Level i becomes what the level below it is.
pub fn copy_below(n: usize, i: usize, levels: &mut [u32])
    requires { (Stands n levels.old i) × (1 < i) }
    ensures { levels.new ≡ put levels.old (base n i) (level_of n levels.old (i - 1)) }
{
    let upper = (i - 1) * (n * n);
    let lower = (i - 2) * (n * n);
    levels.copy_within(lower..upper, upper);
}
