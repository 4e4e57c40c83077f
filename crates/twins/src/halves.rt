// The midpoints of a pair as a list: of each its split and the numbers of its two halves, in one number. The twin search goes over such lists.
ghost use Rattle.std.specs.Prelude.{◌≡◌, ◌&&◌, true, ℕ, ◌+◌, ◌*◌, ◌/◌, ◌%◌, ◌≤◌, ◌<◌, length, get_or};
ghost use Rattle.rules.specs.Finite.{all_below};
ghost use Rattle.twins.specs.Standing.{Pair, Ready};
ghost use Rattle.twins.specs.Halves.{midpoint_of, Listed, Searchable, Halves, Midpoints, has_same};
ghost use Rattle.twins.specs.Skips.{Laid};

use super::level::Level;
use super::over::Over;
use super::skips::next_from;
use super::splits::{first_level, second_level, splits};

// A split and two numbers in one.
fn midpoint_of(c: usize, a: u32, b: u32) -> u64
    requires { (c < 3) × (a < 32768) }
    ensures { result ≡ midpoint_of c a b }
{
    ((c as u64) * 32768 + (a as u64)) * 4294967296 + (b as u64)
}

// x is the last of a list.
fn is_last(list: &[u64], x: u64) -> bool
    ensures { result ≡ true → Listed (length list.now) list.now x }
{
    list.last() == Some(&x)
}

// Puts the midpoints of (v,u) in split c behind the first k of the list: first halves by one level, second halves by another. Items
// that the area passes over are not looked at; a midpoint that equals the last is left out. Answers how many the list has now. The list
// is lent whole, since it is filled from place k on.
pub fn halves(
    c: usize,
    first: Level,
    second: Level,
    area: &[u8],
    v: usize,
    u: usize,
    list: &mut [u64],
    k: usize,
) -> usize
    requires { (Searchable first.n first.numbers.now area.now c) × (second.n ≡ first.n) × (Pair first.n v u) × (k + first.n ≤ length list.old) }
    ensures { Halves first.entry.n first.entry.numbers.now second.entry.numbers.now c v u first.entry.n k list.old result list.new }
{
    let n = first.n;
    let mut at = k;
    let mut m = 0;
    // A `for` over the items would look at each of those that the area passes over.
    while m < n {
        let w = next_from(n, area, v, m);
        if w != m {
            m = w;
            continue;
        }
        m += 1;
        let b = second.number_at(w, u);
        if b == 0 {
            continue;
        }
        let a = first.number_at(v, w);
        if a == 0 {
            continue;
        }
        let x = midpoint_of(c, a, b);
        if is_last(&list[..at], x) {
            continue;
        }
        list[at] = x;
        at += 1;
    }
    at
}

// Each midpoint of a list has a twin in another.
fn within(list: &[u64], other: &[u64]) -> bool
    ensures { result ≡ all_below (length list.now) (has_same list.now other.now (length other.now)) }
{
    let mut all = true;
    'midpoints: for x in list {
        'candidates: for y in other {
            if y == x {
                continue 'midpoints;
            }
        }
        all = false;
        break 'midpoints;
    }
    all
}

// The midpoints of the pair at p in every split. Answers how many.
pub fn midpoints(over: Over, p: usize, list: &mut [u64]) -> usize
    requires { (p < over.n * over.n) × (384 ≤ length list.old) }
    ensures { Midpoints over.entry.n over.entry.i over.entry.levels.now (p / over.entry.n) (p % over.entry.n) result list.new }
{
    let count = splits(over.i);
    let v = p / over.n;
    let u = p % over.n;
    let mut k = 0;
    for c in 0..count {
        let first = Level::of(over.n, over.levels, first_level(over.i, c));
        let second = Level::of(over.n, over.levels, second_level(over.i, c));
        k = halves(c, first, second, over.area, v, u, list, k);
    }
    k
}

// Each midpoint of a list has a twin in another, and the other way round.
pub fn same_midpoints(mine: &[u64], other: &[u64]) -> bool
    ensures { result ≡ (all_below (length mine.now) (has_same mine.now other.now (length other.now)) && all_below (length other.now) (has_same other.now mine.now (length mine.now))) }
{
    within(mine, other) && within(other, mine)
}
