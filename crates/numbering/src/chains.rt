// Chains of positions in the area, by a bucket that alike positions share.
ghost use Rattle.std.specs.Prelude.{◌≡◌, ℕ, List, ◌+◌, ◌*◌, ◌/◌, ◌%◌, ◌<◌, ◌≤◌, length};
ghost use Rattle.rules.specs.Writing.{fill};
ghost use Rattle.twins.specs.Chains.{word, set_word, bucket_of, Chains, Answer};
ghost use Rattle.twins.specs.Halves.{Midpoints};
ghost use Rattle.twins.specs.Held.{Held};
ghost use Rattle.twins.specs.Standing.{is_in, alike};

use packing::words::{set_word, word_at};
use twins::agree::agree;
use twins::hashes::most_at;
use twins::kept::Kept;
use twins::over::Over;
use twins::steps::{Ends, Steps};

// The bucket of a position, by the list of its midpoints.
pub fn bucket(steps: Steps, p: usize, list: &[u64]) -> usize
    requires { p < steps.n * steps.n }
    ensures { ((i : ℕ) → (levels : List ℕ) → Midpoints steps.entry.n i levels (p / steps.entry.n) (p % steps.entry.n) (length list.now) list.now → result ≡ bucket_of steps.entry.n i levels steps.entry.area.now p) × (result < steps.entry.n * steps.entry.n) }
{
    let e = Ends::at(steps.n, p);
    let there = steps.mark_at(e.v, e.u) as usize;
    let back = steps.mark_at(e.u, e.v) as usize;
    let h = most_at(list) as usize;
    (there + 256 * back + h) % (steps.n * steps.n)
}

// The chains are empty.
pub fn clear_heads(n: usize, area: &mut [u8])
    requires { (n ≤ 128) × (9 * (n * n) ≤ length area.old) }
    ensures { area.new ≡ fill area.old (4 * (n * n)) (2 * (n * n)) (λ _. 0) }
{
    let start = 4 * (n * n);
    area[start..start + 2 * (n * n)].fill(0);
}

// A position of the chain of bucket b that agrees with p, where the midpoints of p are listed. Those of the last position compared are kept. A `while`: a chain is followed, and no index is counted.
pub fn find_alike(over: Over, p: usize, b: usize, mine: &[u64], other: &mut Kept) -> Option<usize>
    requires { (p < over.n * over.n) × (b ≡ bucket_of over.n over.i over.levels.now over.area.now p) × (b < over.n * over.n) × (Chains (is_in over.n over.i over.area.now) (alike over.n over.i over.levels.now over.area.now) (bucket_of over.n over.i over.levels.now over.area.now) over.n over.area.now p) × (Midpoints over.n over.i over.levels.now (p / over.n) (p % over.n) (length mine.now) mine.now) × (Held over.n over.i over.levels.now other.old) }
    ensures { (Answer (is_in over.entry.n over.entry.i over.entry.area.now) (alike over.entry.n over.entry.i over.entry.levels.now over.entry.area.now) p result) × (Held over.entry.n over.entry.i over.entry.levels.now other.new) }
{
    let n = over.n;
    let mut at = word_at(over.area, 4 * (n * n) + 2 * b);
    while at != 0 {
        let q = at - 1;
        other.keep(over, q);
        if agree(
            over.steps(),
            Ends::at(n, q),
            Ends::at(n, p),
            other.midpoints(),
            mine,
        ) {
            return Some(q);
        }
        at = word_at(over.area, 2 * (n * n) + 2 * q);
    }
    None
}

// Position p becomes the head of the chain of bucket b.
pub fn add_head(n: usize, area: &mut [u8], b: usize, p: usize)
    requires { (n ≤ 128) × (9 * (n * n) ≤ length area.old) × (p < n * n) × (b < n * n) }
    ensures { area.new ≡ set_word (set_word area.old (2 * (n * n) + 2 * p) (word area.old (4 * (n * n) + 2 * b))) (4 * (n * n) + 2 * b) (p + 1) }
{
    let old = word_at(area, 4 * (n * n) + 2 * b);
    set_word(area, 2 * (n * n) + 2 * p, old);
    set_word(area, 4 * (n * n) + 2 * b, p + 1);
}
