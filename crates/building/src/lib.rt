// Build's work, where nothing of 1 to 5 refuses: the levels, the lists of level k, and a clear area.

#![tactic(auto)]

ghost use Rattle.std.specs.Prelude.{◌≡◌};
ghost use Rattle.rules.specs.Graph.{graph_of};
ghost use Rattle.rules.specs.Verdict.{good};
ghost use Rattle.rules.specs.Outcomes.{build_refusal, build_tables, index_for};
ghost use Rattle.rules.specs.Calls.{build_call, build_end};
ghost use Rattle.building.specs.Building.{EndsAs, ListsReady, ListsWritten};

use levels::all::build_levels;
use lists::listing::write_entries;
use rules::{Counts, Refusal};
use sorting::sort;
use top::Sizes;

// The lists of a level-k table; 6 leaves the entries. What is written stays list by list, as the entry is lent it.
fn build_lists(
    table: &[u32],
    classes: u32,
    sizes: Sizes,
    edges: &[u32],
    starts: &mut [u32],
    order: &mut [u32],
    entries: &mut [u32],
    area: &mut [u8],
) -> Result<Counts, Refusal>
    requires { ListsReady sizes.n sizes.labels sizes.k classes edges.now table.now starts.old order.old area.old }
    ensures { ListsWritten sizes.n (graph_of sizes.n sizes.labels edges.now) sizes.k table.now starts.old order.old entries.old area.old result starts.new order.new entries.new area.new }
{
    let Sizes { n, labels, k } = sizes;
    let last = classes as usize;
    let room = entries.len() / 2;
    sort::fill(table, last, starts, order);
    let many = write_entries(edges, labels, n, k, table, area, entries);
    making::clear(area, 0, 9 * (n * n));
    if many > room {
        return Err(Refusal::EntryRoom(many as u32));
    }
    Ok(Counts {
        classes,
        pairs: starts[last],
        entries: many as u32,
    })
}

// The four tables.
pub fn build_tables(
    sizes: Sizes,
    edges: &[u32],
    levels: &mut [u32],
    starts: &mut [u32],
    order: &mut [u32],
    entries: &mut [u32],
    area: &mut [u8],
) -> Result<Counts, Refusal>
    requires { build_refusal (build_call sizes.n sizes.labels sizes.k edges.now levels.old starts.old order.old entries.old area.old) ≡ good }
    ensures { let call = build_call sizes.n sizes.labels sizes.k edges.now levels.old starts.old order.old entries.old area.old in EndsAs (build_tables call (index_for call)) (build_end result levels.new starts.new order.new entries.new area.new) }
{
    let classes = build_levels(sizes.n, sizes.k, edges, levels, area);
    build_lists(
        top::top_of(levels, sizes.n, sizes.k),
        classes,
        sizes,
        edges,
        starts,
        order,
        entries,
        area,
    )
}
