// Numbering the pairs of a level, in order of position.
ghost use Rattle.std.specs.Prelude.{◌+◌, ◌*◌, ◌-◌, ◌<◌, ◌≤◌, length};
ghost use Rattle.twins.specs.Chains.{Chains, bucket_of};
ghost use Rattle.twins.specs.Held.{Held};
ghost use Rattle.twins.specs.Standing.{Ready, Near, is_in, alike};
ghost use Rattle.numbering.specs.Needs.{Begun, Taken, Positioned, Numbered};
ghost use Rattle.twins.specs.Skips.{Laid};

use super::chains::{add_head, bucket, clear_heads, find_alike};
use twins::halves::midpoints;
use twins::kept::Kept;
use twins::near::mark_near;
use twins::over::Over;
use twins::skips::lay_out;

// The number of position p, where the numbers before it stand and top is the largest of them: that of an earlier position
// that agrees, or a new one. Only positions of the same bucket are compared: alike positions share it. The midpoints of p are listed anew,
// and asked for once.
fn next_number(
    n: usize,
    i: usize,
    levels: &[u32],
    area: &mut [u8],
    p: usize,
    top: u32,
    mine: &mut [u64],
    other: &mut Kept,
) -> u32
    requires { (Ready n i levels.now area.old) × (Near n i area.old) × (Begun n i levels.now area.old p top) × (p < n * n) × (Chains (is_in n i area.old) (alike n i levels.now area.old) (bucket_of n i levels.now area.old) n area.old p) × (Laid n i levels.now area.old) × (384 ≤ length mine.old) × (Held n i levels.now other.old) }
    ensures { (Taken n i levels.now area.old p result area.new) × (Held n i levels.now other.new) }
{
    if area[n * n + p] == 0 {
        return 0;
    }
    let over = Over { n, i, levels, area };
    let many = midpoints(over, p, mine);
    let list = &mine[..many];
    let b = bucket(over.steps(), p, list);
    if let Some(q) = find_alike(over, p, b, list, other) {
        return levels[(i - 1) * (n * n) + q];
    }
    add_head(n, area, b, p);
    top + 1
}

// The numbers of level i in their place, where the bytes of the connected pairs stand and the chains are empty.
fn number_positions(n: usize, i: usize, levels: &mut [u32], area: &mut [u8]) -> u32
    requires { (Ready n i levels.old area.old) × (Near n i area.old) × (Chains (is_in n i area.old) (alike n i levels.old area.old) (bucket_of n i levels.old area.old) n area.old 0) × (Laid n i levels.old area.old) }
    ensures { Positioned n i levels.old area.old result levels.new area.new }
{
    let start = (i - 1) * (n * n);
    let mut mine = [0; 384];
    let mut other = Kept::new();
    let mut top: u32 = 0;
    for p in 0..n * n {
        let k = next_number(n, i, levels, area, p, top, &mut mine, &mut other);
        levels[start + p] = k;
        top = top.max(k);
    }
    top
}

// Level i is numbered over the levels below. Answers how many classes it has.
pub fn number_level(n: usize, i: usize, levels: &mut [u32], area: &mut [u8]) -> u32
    requires { Ready n i levels.old area.old }
    ensures { Numbered n i levels.old area.old result levels.new area.new }
{
    lay_out(n, i, levels, area);
    mark_near(n, i, levels, area);
    clear_heads(n, area);
    number_positions(n, i, levels, area)
}
