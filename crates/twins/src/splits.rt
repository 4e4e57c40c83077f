// Which levels the midpoints of a level are looked for in: the rule of condition C, as code. A rule with other splits changes this file.
ghost use Rattle.std.specs.Prelude.{◌≡◌, ℕ, ◌<◌, ◌≤◌};
ghost use Rattle.rules.specs.Rule.{rule};

// How many splits of midpoints level i has. The lists of midpoints have room for three.
pub fn splits(i: usize) -> usize
    ensures { (result ≡ rule.many i) × (i ≤ 4 → result ≤ 3) }
{
    if 1 < i {
        return 1;
    }
    0
}

// The levels of the two halves are two functions: a rule may look for them in different levels.

// The level of the first half in split c of level i.
pub fn first_level(i: usize, c: usize) -> usize
    requires { c < rule.many i }
    ensures { result ≡ rule.first i c }
{
    i - 1
}

// The level of the second half in split c of level i.
pub fn second_level(i: usize, c: usize) -> usize
    requires { c < rule.many i }
    ensures { result ≡ rule.second i c }
{
    i - 1
}
