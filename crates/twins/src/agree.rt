// Agreement of two pairs over the levels below.
ghost use Rattle.std.specs.Prelude.{◌≡◌, List, ℕ, length};
ghost use Rattle.rules.specs.Graph.{Graph};
ghost use Rattle.rules.specs.Rule.{rule};
ghost use Rattle.rules.specs.Levels.{level_of, same_ends, agree};
ghost use Rattle.twins.specs.Marks.{marked_graph};
ghost use Rattle.twins.specs.Standing.{Pair};
ghost use Rattle.twins.specs.Halves.{Midpoints};

use super::halves::same_midpoints;
use super::steps::{Ends, Steps};

// The two items of one pair are the same exactly when those of the other are.
pub fn same_ends(a: Ends, b: Ends) -> bool
    ensures { (g : Graph) → result ≡ same_ends g a.v a.u b.v b.u }
{
    (a.v == a.u) == (b.v == b.u)
}

// Two pairs agree at level i: A, B, and C by the lists of their midpoints in every split.
pub fn agree(steps: Steps, a: Ends, b: Ends, mine: &[u64], other: &[u64]) -> bool
    requires { (Pair steps.n a.v a.u) × (Pair steps.n b.v b.u) }
    ensures { (i : ℕ) → (levels : List ℕ) → Midpoints steps.entry.n i levels a.v a.u (length mine.now) mine.now → Midpoints steps.entry.n i levels b.v b.u (length other.now) other.now → result ≡ agree rule (marked_graph steps.entry.n steps.entry.area.now) i (level_of steps.entry.n levels) a.v a.u b.v b.u }
{
    if !same_ends(a, b) {
        return false;
    }
    if !steps.same_steps(a, b) {
        return false;
    }
    same_midpoints(mine, other)
}
