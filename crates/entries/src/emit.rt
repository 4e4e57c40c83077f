// The entries of one relation: code and class for each class whose first pair it holds.
// `from` and `l`, and `table` and `n`, are parameters of their own: rows are read at `from` and a start, and `n` is asked for alone, so that a struct would be taken apart in each function.

ghost use Rattle.std.specs.Prelude.{◌≡◌, List, [], ◌∷◌, ◌++◌, Bool, cond, not, ◌&&◌, ℕ, ◌+◌, ◌*◌, ◌-◌, ◌≤◌, ◌<◌, eqb, length};
ghost use Rattle.rules.specs.Finite.{count_below};
ghost use Rattle.relations.specs.Relations.{bit_at, Frame, Slot};
ghost use Rattle.entries.specs.Entries.{Went, Firsts, Emitting, is_hit, entries_row, entries_rows};
ghost use Rattle.entries.specs.Lent.{Same};

use super::list::EntryList;
use packing::bits::has_bit;
use relations::blocks::lacks;

// The positions that are the first of their number: 1 in the bytes from 8·n·n on, 0 for the others.
pub fn mark_firsts(table: &[u32], n: usize, area: &mut [u8])
    requires { (n ≤ 128) × (length table.now ≡ n * n) × (9 * (n * n) ≤ length area.old) }
    ensures { (Frame (8 * (n * n)) (9 * (n * n)) area.old area.new) × (Firsts n table.now area.new) }
{
    let at = 8 * (n * n);
    let mut most = 0;
    for (p, &x) in table.iter().enumerate() {
        area[at + p] = u8::from(most < x);
        most = most.max(x);
    }
}

// 1 where bit l of x is set and the position is a first one, else 0.
fn hit(x: u8, first: u8, l: usize) -> u8
    requires { l < 8 }
    ensures { result ≡ cond (not (eqb first 0) && bit_at l x) 1 0 }
{
    u8::from(first != 0 && has_bit(x, l))
}

// How many of n positions are first ones and have bit l.
fn count_row(area: &[u8], from: usize, firsts: usize, l: usize, n: usize) -> usize
    requires { (l < 8) × (n ≤ 128) × (from + n ≤ length area.now) × (firsts + n ≤ length area.now) }
    ensures { result ≡ count_below n (is_hit area.now from firsts l) }
{
    let mut some: u8 = 0;
    for u in 0..n {
        some += hit(area[from + u], area[firsts + u], l);
    }
    usize::from(some)
}

// The entries of the places from `start` up to `end` in row v of the relation that bit l of the block at `from` holds, behind those of the places before.
fn put_places(
    table: &[u32],
    n: usize,
    v: usize,
    start: usize,
    end: usize,
    code: u32,
    from: usize,
    l: usize,
    area: &[u8],
    list: &mut EntryList,
)
    requires { (v < n) × (start ≤ end) × (end ≤ n) × (Emitting table.now n l from list.old.past.count (end - start) area.now) }
    ensures { (list.new.past.count ≤ list.old.past.count + (end - start)) × ((J : ℕ → ℕ → Bool) (at met : ℕ) (old : List ℕ) → Slot n from l area.now J → Firsts n table.now area.now → Went at met list.old.past.count list.old.past.met (entries_row n table.now J code v start) list.old.stored.now old list.old.out.now → Went at met list.new.past.count list.new.past.met (entries_row n table.now J code v end) list.old.stored.now old list.new.out.now) × (Same list.old list.new) }
{
    let row = v * n;
    let firsts = 8 * (n * n);
    for u in start..end {
        let p = row + u;
        if !has_bit(area[from + p], l) {
            continue;
        }
        if area[firsts + p] == 0 {
            continue;
        }
        list.put(code, table[p]);
    }
}

// The entries of row v of the relation that bit l of the block at `from` holds. They are only counted where there is nothing to write to and nothing to compare with. Else sixteen places without that bit are passed over at once.
fn emit_row(
    table: &[u32],
    n: usize,
    v: usize,
    code: u32,
    from: usize,
    l: usize,
    area: &[u8],
    list: &mut EntryList,
)
    requires { (v < n) × (Emitting table.now n l from list.old.past.count n area.now) }
    ensures { (list.new.past.count ≤ list.old.past.count + n) × ((J : ℕ → ℕ → Bool) → Slot n from l area.now J → Firsts n table.now area.now → Went list.old.past.count list.old.past.met list.new.past.count list.new.past.met (entries_row n table.now J code v n) list.old.stored.now list.old.out.now list.new.out.now) × (Same list.old list.new) }
{
    let row = v * n;
    if list.only_counts() {
        list.past.count += count_row(area, from + row, 8 * (n * n) + row, l, n);
        return;
    }
    for i in 0..n / 16 {
        let u = 16 * i;
        let first = from + (row + u);
        if lacks(&area[first..first + 16], l) {
            continue;
        }
        put_places(table, n, v, u, u + 16, code, from, l, area, list);
    }
    put_places(table, n, v, n - n % 16, n, code, from, l, area, list);
}

// The entries of the relation that bit l of the block at `from` holds. Rows without that bit are passed over.
pub fn emit(
    table: &[u32],
    n: usize,
    code: u32,
    from: usize,
    l: usize,
    area: &[u8],
    list: &mut EntryList,
)
    requires { Emitting table.now n l from list.old.past.count (n * n) area.now }
    ensures { (list.new.past.count ≤ list.old.past.count + n * n) × ((J : ℕ → ℕ → Bool) → Slot n from l area.now J → Firsts n table.now area.now → Went list.old.past.count list.old.past.met list.new.past.count list.new.past.met (entries_rows n table.now J code n) list.old.stored.now list.old.out.now list.new.out.now) × (Same list.old list.new) }
{
    for v in 0..n {
        let row = from + v * n;
        if lacks(&area[row..row + n], l) {
            continue;
        }
        emit_row(table, n, v, code, from, l, area, list);
    }
}
