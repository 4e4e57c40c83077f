// Check's work, where nothing of 1 to 5 refuses: the levels, then starts, order and entries against the stored level k.

#![tactic(auto)]

ghost use Rattle.std.specs.Prelude.{◌≡◌, ◌*◌, ◌&&◌, not, eqb};
ghost use Rattle.rules.specs.Graph.{graph_of};
ghost use Rattle.rules.specs.Rule.{rule};
ghost use Rattle.rules.specs.Verdict.{good};
ghost use Rattle.rules.specs.Accept.{accepts};
ghost use Rattle.rules.specs.Numbers.{list_number};
ghost use Rattle.rules.specs.Outcomes.{check_refusal, told};
ghost use Rattle.relations.specs.Relations.{Frame};
ghost use Rattle.rules.specs.Calls.{index_of, check_call};
ghost use Rattle.top.specs.Tables.{ListsStored};
ghost use Rattle.checking.specs.Checking.{lists_verdict};

use levels::all::check_levels;
use lists::listing::match_entries;
use matching::match_lists;
use rules::{ClassList, Refusal};
use top::{Sizes, Tables};

// Whether two lists of these lengths whose first difference is d are not the same. The test and the number told stand apart, as the edit check_starts_unread has them.
fn differ(d: usize, one: usize, other: usize) -> bool
    ensures { result ≡ not (eqb d one && eqb d other) }
{
    !(d == one && d == other)
}

// The number that refusal 16 tells for a list. The refusal holds the number and no `ClassList`: a report answers for any number.
#[tactic(auto, unfolding(rules::specs::Numbers::list_number))]
fn list_number(list: ClassList) -> u32
    ensures { result ≡ list_number list }
{
    match list {
        ClassList::Starts => 1,
        ClassList::Order => 2,
    }
}

// 16 for starts, then for order, then 17: stored lists against those of the table.
fn check_lists(
    table: &[u32],
    sizes: Sizes,
    edges: &[u32],
    tables: Tables,
    area: &mut [u8],
) -> Result<(), Refusal>
    requires { ListsStored sizes.n sizes.labels sizes.k edges.now table.now area.old }
    ensures { (result ≡ told (lists_verdict (graph_of sizes.n sizes.labels edges.now) sizes.k table.now tables.entry.starts.now tables.entry.order.now tables.entry.entries.now)) × (Frame 0 (9 * (sizes.n * sizes.n)) area.old area.new) }
{
    let found = match_lists(table, sizes.n, tables.starts, tables.order, area);
    let first = found.starts;
    let start_numbers = found.classes + 1;
    if differ(first, start_numbers, tables.starts.len()) {
        return Err(Refusal::ListFault(list_number(ClassList::Starts), first as u32));
    }
    let second = found.order;
    if differ(second, found.pairs, tables.order.len()) {
        return Err(Refusal::ListFault(list_number(ClassList::Order), second as u32));
    }
    let Sizes { n, labels, k } = sizes;
    let progress = match_entries(edges, labels, n, k, table, area, tables.entries);
    let third = progress.met;
    let entry_numbers = 2 * progress.count;
    if differ(third, entry_numbers, tables.entries.len()) {
        return Err(Refusal::EntryFault(third as u32));
    }
    Ok(())
}

// 15, then 16 and 17.
pub fn check_tables(
    sizes: Sizes,
    edges: &[u32],
    tables: Tables,
    area: &mut [u8],
) -> Result<(), Refusal>
    requires { check_refusal (check_call sizes.n sizes.labels sizes.k edges.now tables.levels.now tables.starts.now tables.order.now tables.entries.now area.old) ≡ good }
    ensures { (result ≡ told (accepts rule (graph_of sizes.n sizes.labels edges.now) (index_of sizes.n sizes.labels sizes.k tables.entry.levels.now tables.entry.starts.now tables.entry.order.now tables.entry.entries.now))) × (Frame 0 (9 * (sizes.n * sizes.n)) area.old area.new) }
{
    check_levels(sizes.n, sizes.k, edges, tables.levels, area)?;
    let table = top::top_of(tables.levels, sizes.n, sizes.k);
    check_lists(table, sizes, edges, tables, area)
}
