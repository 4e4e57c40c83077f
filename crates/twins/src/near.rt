// Which pairs are connected within i: a byte for each pair behind the marks, made a row at a time.
ghost use Rattle.std.specs.Prelude.{◌≡◌, not, ℕ, ◌+◌, ◌*◌, ◌-◌, ◌<◌, ◌≤◌, eqb, length, get_or};
ghost use Rattle.std.specs.Int.Bits.{bit_or};
ghost use Rattle.rules.specs.Graph.{connected};
ghost use Rattle.rules.specs.Levels.{number_at};
ghost use Rattle.rules.specs.Writing.{fill};
ghost use Rattle.twins.specs.Marks.{marked_graph, one_if};
ghost use Rattle.twins.specs.Standing.{Ready, near_byte};
ghost use Rattle.twins.specs.Rows.{Empty, Reached, RowOf};

use super::level::Level;
use super::steps::Steps;

// The items within one step of v: 1 for each, and 0 for the others.
fn first_row(steps: Steps, v: usize, row: &mut [u32])
    requires { (v < steps.n) × (steps.n ≤ length row.old) }
    ensures { row.new ≡ fill row.old 0 steps.entry.n (λ u. one_if (connected (marked_graph steps.entry.n steps.entry.area.now) 1 v u)) }
{
    for u in 0..steps.n {
        row[u] = u32::from(steps.next_to(v, u));
    }
}

// Row m of level 1 is added to the row: a number stays 0 exactly where both are.
fn add_row(first: Level, m: usize, row: &mut [u32])
    requires { (m < first.n) × (first.n ≤ length row.old) }
    ensures { row.new ≡ fill row.old 0 first.entry.n (λ u. bit_or (get_or row.old u 0) (number_at first.entry.n first.entry.numbers.now m u)) }
{
    let start = m * first.n;
    for u in 0..first.n {
        row[u] |= first.numbers[start + u];
    }
}

// The items that a step leads to from those that a level connects with v.
fn gather_row(level: Level, first: Level, v: usize, row: &mut [u32])
    requires { (first.n ≡ level.n) × (v < level.n) × (Empty level.n row.old) }
    ensures { Reached level.entry.n level.entry.numbers.now first.entry.numbers.now v level.entry.n row.new }
{
    for m in 0..level.n {
        if level.number_at(v, m) != 0 {
            add_row(first, m, row);
        }
    }
}

// The items connected with v within i: numbers that are not 0.
fn fill_row(n: usize, i: usize, levels: &[u32], area: &[u8], v: usize, row: &mut [u32])
    requires { (Ready n i levels.now area.now) × (v < n) × (Empty n row.old) }
    ensures { RowOf n i area.now v row.new }
{
    if i == 1 {
        first_row(Steps { n, area }, v, row);
        return;
    }
    let level = Level::of(n, levels, i - 1);
    let first = Level::of(n, levels, 1);
    gather_row(level, first, v, row);
}

// The signs of a row, as bytes from `at` on: 0 for 0, and 1 for all else.
fn put_row(n: usize, row: &[u32], area: &mut [u8], at: usize)
    requires { (n ≤ length row.now) × (at + n ≤ length area.old) }
    ensures { area.new ≡ fill area.old at n (λ u. one_if (not (eqb (get_or row.now u 0) 0))) }
{
    for u in 0..n {
        area[at + u] = u8::from(row[u] != 0);
    }
}

// The bytes of row v.
fn near_row(n: usize, i: usize, levels: &[u32], area: &mut [u8], v: usize)
    requires { (Ready n i levels.now area.old) × (v < n) }
    ensures { area.new ≡ fill area.old (n * n + v * n) n (λ u. one_if (connected (marked_graph n area.old) i v u)) }
{
    let mut row: [u32; 128] = [0; 128];
    fill_row(n, i, levels, area, v, &mut row);
    put_row(n, &row, area, n * n + v * n);
}

// The bytes of all positions, behind the marks.
pub fn mark_near(n: usize, i: usize, levels: &[u32], area: &mut [u8])
    requires { Ready n i levels.now area.old }
    ensures { area.new ≡ fill area.old (n * n) (n * n) (near_byte n i area.old) }
{
    for v in 0..n {
        near_row(n, i, levels, area, v);
    }
}
