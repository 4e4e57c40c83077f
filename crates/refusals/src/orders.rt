// The orders of refusals of build and of check before any work. Each is left at the first link that refuses.
ghost use Rattle.std.specs.Prelude.{◌≡◌, ℕ, List};
ghost use Rattle.rules.specs.Outcomes.{told, build_refusal, check_refusal};
ghost use Rattle.rules.specs.Calls.{build_call, check_call};

use crate::{chains, links};
use rules::Refusal;

// Check: 1 2 3 4 5.
pub fn check_order(
    items: u32,
    labels: u32,
    k: u32,
    edges: &[u32],
    levels: &[u32],
    area: &[u8],
) -> Result<(), Refusal>
    ensures { (starts order entries : List ℕ) → result ≡ told (check_refusal (check_call items labels k edges.now levels.now starts order entries area.now)) }
{
    links::sizes(items, labels)?;
    links::level_count(k)?;
    links::edge_count(edges)?;
    links::edges_fit(items, labels, edges)?;
    links::room(area.len(), 9 * chains::pairs(items))?;
    links::room(levels.len(), k as usize * chains::pairs(items))
}

// Build: 1 2 3 4 5, with room for order and starts. It takes what build is lent, list by list.
pub fn build_order(
    items: u32,
    labels: u32,
    k: u32,
    edges: &[u32],
    levels: &[u32],
    starts: &[u32],
    order: &[u32],
    area: &[u8],
) -> Result<(), Refusal>
    ensures { (entries : List ℕ) → result ≡ told (build_refusal (build_call items labels k edges.now levels.now starts.now order.now entries area.now)) }
{
    check_order(items, labels, k, edges, levels, area)?;
    links::room(order.len(), chains::pairs(items))?;
    links::room(starts.len(), chains::pairs(items) + 1)
}
