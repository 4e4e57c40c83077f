// Build and check. Their parameters, as those of the answers, are those of the functions for C, in that order.

#![tactic(auto)]

ghost use Rattle.rules.specs.Promises.{Builds, Checks};
ghost use Rattle.rules.specs.Calls.{build_call, build_end, check_call, check_end};

use refusals::orders;
use rules::{Counts, Refusal};
use top::{Sizes, Tables};

// Writes the four tables of the edge table, and answers how many classes, connected pairs and entries there are; or refuses with 1 to 6.
pub fn build(
    items: u32,
    labels: u32,
    k: u32,
    edges: &[u32],
    levels: &mut [u32],
    starts: &mut [u32],
    order: &mut [u32],
    entries: &mut [u32],
    area: &mut [u8],
) -> Result<Counts, Refusal>
    ensures { Builds (build_call items labels k edges.now levels.old starts.old order.old entries.old area.old) (build_end result levels.new starts.new order.new entries.new area.new) }
{
    orders::build_order(items, labels, k, edges, levels, starts, order, area)?;
    let sizes = Sizes {
        n: items as usize,
        labels: labels as usize,
        k: k as usize,
    };
    building::build_tables(sizes, edges, levels, starts, order, entries, area)
}

// Accepts stored tables exactly if the written conditions hold; or refuses with 1 to 5 or 15 to 17.
pub fn check(
    items: u32,
    labels: u32,
    k: u32,
    edges: &[u32],
    levels: &[u32],
    starts: &[u32],
    order: &[u32],
    entries: &[u32],
    area: &mut [u8],
) -> Result<(), Refusal>
    ensures { Checks (check_call items labels k edges.now levels.now starts.now order.now entries.now area.old) (check_end result area.new) }
{
    orders::check_order(items, labels, k, edges, levels, area)?;
    let n = items as usize;
    let sizes = Sizes {
        n,
        labels: labels as usize,
        k: k as usize,
    };
    let tables = Tables {
        levels,
        starts,
        order,
        entries,
    };
    let verdict = checking::check_tables(sizes, edges, tables, area);
    making::clear(area, 0, 9 * (n * n));
    verdict
}
