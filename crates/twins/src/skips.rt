// The items that the level below connects with each item, so that a search over midpoints passes over the others.
ghost use Rattle.std.specs.Prelude.{◌≡◌, ℕ, ◌+◌, ◌*◌, ◌<◌, ◌≤◌, length, get_or};
ghost use Rattle.twins.specs.Standing.{Pair, Ready};
ghost use Rattle.twins.specs.Skips.{Skips, Laid, SkipRow, Aside};

use super::level::Level;
use super::splits::splits;

// For each item the first from it on that the level connects with v, or n.
fn skip_row(level: Level, area: &mut [u8], v: usize)
    requires { (level.n ≤ 128) × (9 * (level.n * level.n) ≤ length area.old) × (v < level.n) }
    ensures { SkipRow level.entry.n level.entry.numbers.now v area.old area.new }
{
    let n = level.n;
    let mut next = n;
    for m in (0..n).rev() {
        if level.number_at(v, m) != 0 {
            next = m;
        }
        area[8 * (n * n) + (v * n + m)] = next as u8;
    }
}

// The same for every item v.
fn skip_rows(level: Level, area: &mut [u8])
    requires { (level.n ≤ 128) × (9 * (level.n * level.n) ≤ length area.old) }
    ensures { (Skips level.entry.n level.entry.numbers.now area.new) × (Aside level.entry.n area.old area.new) }
{
    for v in 0..level.n {
        skip_row(level, area, v);
    }
}

// The first connected item from m on, or n.
pub fn next_from(n: usize, area: &[u8], v: usize, m: usize) -> usize
    requires { (9 * (n * n) ≤ length area.now) × (Pair n v m) }
    ensures { result ≡ get_or area.now (8 * (n * n) + (v * n + m)) 0 }
{
    area[8 * (n * n) + (v * n + m)] as usize
}

// Lays out what the search over midpoints of level i goes by. It is of level i-1, and serves every split: what a lower level connects,
// level i-1 connects too.
pub fn lay_out(n: usize, i: usize, levels: &[u32], area: &mut [u8])
    requires { Ready n i levels.now area.old }
    ensures { (Laid n i levels.now area.new) × (Aside n area.old area.new) }
{
    if splits(i) == 0 {
        return;
    }
    skip_rows(Level::of(n, levels, i - 1), area);
}
