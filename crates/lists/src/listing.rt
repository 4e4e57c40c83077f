// The entry list of a table, written or compared with a stored one: one walk over all sequences of 0 to k symbols does both.

ghost use Rattle.std.specs.Prelude.{◌≡◌, List, ℕ, ◌*◌};
ghost use Rattle.rules.specs.Graph.{graph_of};
ghost use Rattle.rules.specs.Levels.{max_of};
ghost use Rattle.rules.specs.Lists.{entries_up_to, entries_of};
ghost use Rattle.sorting.specs.Sort.{Contiguous};
ghost use Rattle.relations.specs.Relations.{Frame, EdgesIn, Marked};
ghost use Rattle.entries.specs.Entries.{Went, Firsts};
ghost use Rattle.entries.specs.Lent.{Same};
ghost use Rattle.lists.specs.Listing.{Listing, Listed, Compared};

use entries::emit::{emit, mark_firsts};
use entries::list::{EntryList, Progress};
use relations::marks::{identity, mark_edges};
use sequences::walk;

// The entries of all sequences of 0 to k symbols, where the steps of the edges and the first positions are marked.
fn lengths(table: &[u32], labels: usize, n: usize, k: usize, area: &mut [u8], list: &mut EntryList)
    requires { (Listing table.now labels n k area.old) × (list.old.past.count ≡ 0) × (list.old.past.met ≡ 0) }
    ensures { (Frame (2 * (n * n)) (8 * (n * n)) area.old area.new) × ((es : List ℕ) → Contiguous table.now → Firsts n table.now area.old → Marked n es area.old → Went 0 0 list.new.past.count list.new.past.met (entries_up_to (graph_of n labels es) table.now (max_of table.now) k) list.old.stored.now list.old.out.now list.new.out.now) × (Same list.old list.new) }
{
    let start = 2 * (n * n);
    identity(area, n, start);
    emit(table, n, 0, start, 0, area, list);
    for j in 0..k {
        walk(table, labels, n, j + 1, 0, 0, area, list);
    }
}

// How many entries there are; they are written if there is room for all of them, and nothing is written otherwise.
pub fn write_entries(
    edges: &[u32],
    labels: usize,
    n: usize,
    k: usize,
    table: &[u32],
    area: &mut [u8],
    entries: &mut [u32],
) -> usize
    requires { (EdgesIn edges.now n) × (Contiguous table.now) × (Listing table.now labels n k area.old) }
    ensures { (Frame 0 (9 * (n * n)) area.old area.new) × (Listed result (entries_of (graph_of n labels edges.now) k table.now) entries.old entries.new) }
{
    mark_edges(edges, n, area);
    mark_firsts(table, n, area);
    let past = Progress { count: 0, met: 0 };
    let mut nowhere: [u32; 0] = [];
    let mut counted = EntryList {
        stored: &table[..0],
        out: &mut nowhere,
        past,
    };
    lengths(table, labels, n, k, area, &mut counted);
    let count = counted.past.count;
    if count > entries.len() / 2 {
        return count;
    }
    let mut written = EntryList {
        stored: &table[..0],
        out: entries,
        past,
    };
    lengths(table, labels, n, k, area, &mut written);
    count
}

// How many entries there are, and the first number at which they differ from the stored list.
pub fn match_entries(
    edges: &[u32],
    labels: usize,
    n: usize,
    k: usize,
    table: &[u32],
    area: &mut [u8],
    stored: &[u32],
) -> Progress
    requires { (EdgesIn edges.now n) × (Contiguous table.now) × (Listing table.now labels n k area.old) }
    ensures { (Frame 0 (9 * (n * n)) area.old area.new) × (Compared result.count result.met (entries_of (graph_of n labels edges.now) k table.now) stored.now) }
{
    let mut nowhere: [u32; 0] = [];
    mark_edges(edges, n, area);
    mark_firsts(table, n, area);
    let past = Progress { count: 0, met: 0 };
    let mut list = EntryList {
        stored,
        out: &mut nowhere,
        past,
    };
    lengths(table, labels, n, k, area, &mut list);
    list.past
}
