// Checking the numbers of a level, whoever wrote them.

#![tactic(auto)]

ghost use Rattle.std.specs.Prelude.{◌≡◌, ◌+◌, ◌*◌, ◌-◌, ◌<◌, ◌≤◌, length};
ghost use Rattle.rules.specs.Rule.{rule};
ghost use Rattle.rules.specs.Levels.{level_of, agree_at};
ghost use Rattle.rules.specs.Accept.{level_ok};
ghost use Rattle.twins.specs.Marks.{marked_graph};
ghost use Rattle.twins.specs.Held.{Held};
ghost use Rattle.twins.specs.Standing.{Ready, Near};
ghost use Rattle.numbering.specs.Needs.{Passed, Faulty};
ghost use Rattle.faults.specs.Needs.{Seen, Firsts, Noted};
ghost use Rattle.twins.specs.Skips.{Laid};

use packing::words::{set_word, word_at};
use twins::agree::agree;
use twins::kept::Kept;
use twins::near::mark_near;
use twins::over::Over;
use twins::skips::lay_out;
use twins::steps::Ends;

// The pairs at p and q agree. The midpoints of q stay kept.
fn agree_at(over: Over, p: usize, q: usize, mine: &mut Kept, other: &mut Kept) -> bool
    requires { (p < over.n * over.n) × (q < over.n * over.n) × (Held over.n over.i over.levels.now mine.old) × (Held over.n over.i over.levels.now other.old) }
    ensures { (result ≡ agree_at rule (marked_graph over.entry.n over.entry.area.now) over.entry.i (level_of over.entry.n over.entry.levels.now) p q) × (Held over.entry.n over.entry.i over.entry.levels.now mine.new) × (Held over.entry.n over.entry.i over.entry.levels.now other.new) }
{
    mine.keep(over, p);
    other.keep(over, q);
    let a = Ends::at(over.n, p);
    let b = Ends::at(over.n, q);
    agree(over.steps(), a, b, mine.midpoints(), other.midpoints())
}

// Position p is right, where top is the largest number before it and the first position of each number stands in the area. A new
// number's first position is p, which agrees with itself.
fn is_right(over: Over, p: usize, top: u32, mine: &mut Kept, other: &mut Kept) -> bool
    requires { (Near over.n over.i over.area.now) × (Seen over.n over.i over.levels.now p top) × (Firsts over.n over.i over.levels.now over.area.now top) × (Held over.n over.i over.levels.now mine.old) × (Held over.n over.i over.levels.now other.old) }
    ensures { (result ≡ level_ok rule (marked_graph over.entry.n over.entry.area.now) over.entry.i (level_of over.entry.n over.entry.levels.now) p) × (Held over.entry.n over.entry.i over.entry.levels.now mine.new) × (Held over.entry.n over.entry.i over.entry.levels.now other.new) }
{
    let n = over.n;
    let c = over.levels[(over.i - 1) * (n * n) + p];
    if over.area[n * n + p] == 0 {
        return c == 0;
    }
    if c == 0 {
        return false;
    }
    if top < c {
        return c == top + 1;
    }
    let q = word_at(over.area, 2 * (n * n) + 2 * (c as usize - 1));
    agree_at(over, p, q, mine, other)
}

// The largest number so far; where c is a new one, p is kept as its first position.
fn note_first(n: usize, area: &mut [u8], p: usize, c: u32, top: u32) -> u32
    requires { (n ≤ 128) × (9 * (n * n) ≤ length area.old) × (p < n * n) × (top ≤ p) }
    ensures { Noted n area.old p c top result area.new }
{
    if c <= top {
        return top;
    }
    set_word(area, 2 * (n * n) + 2 * (top as usize), p);
    c
}

// The first faulty position of level i, where the bytes of the connected pairs stand.
fn check_positions(n: usize, i: usize, levels: &[u32], area: &mut [u8]) -> Option<usize>
    requires { (Ready n i levels.now area.old) × (Near n i area.old) × (Laid n i levels.now area.old) }
    ensures { Passed n i levels.now area.old result area.new }
{
    let start = (i - 1) * (n * n);
    let mut mine = Kept::new();
    let mut other = Kept::new();
    let mut top: u32 = 0;
    for p in 0..n * n {
        let over = Over { n, i, levels, area };
        if !is_right(over, p, top, &mut mine, &mut other) {
            return Some(p);
        }
        top = note_first(n, area, p, levels[start + p], top);
    }
    None
}

// The first faulty position of level i, where the levels below are right.
pub fn check_level(n: usize, i: usize, levels: &[u32], area: &mut [u8]) -> Option<usize>
    requires { Ready n i levels.now area.old }
    ensures { Faulty n i levels.now area.old result area.new }
{
    lay_out(n, i, levels, area);
    mark_near(n, i, levels, area);
    check_positions(n, i, levels, area)
}
