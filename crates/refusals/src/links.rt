// The links that the entries' orders of refusals share: each finds nothing to refuse, or refuses.
ghost use Rattle.std.specs.Prelude.{◌≡◌, ◌≤◌, ◌||◌, leb, ltb, length};
ghost use Rattle.rules.specs.declared.Refusal.{Refusal as Fault};
ghost use Rattle.rules.specs.Verdict.{when, sizes as sizesLink, level_count, edge_count, edges_fit};
ghost use Rattle.rules.specs.Outcomes.{told};

use rules::Refusal;

// 1: more than 128 items, or not 1 to 8 labels.
#[tactic(auto, unfolding(rules::specs::Outcomes::told, rules::specs::Verdict::when, rules::specs::Verdict::sizes))]
pub fn sizes(items: u32, labels: u32) -> Result<(), Refusal>
    ensures { result ≡ told (sizesLink items labels) }
{
    if items > 128 || labels == 0 || labels > 8 {
        return Err(Refusal::Sizes);
    }
    Ok(())
}

// 2: k is not 1 to 4.
#[tactic(auto, unfolding(rules::specs::Outcomes::told, rules::specs::Verdict::when, rules::specs::Verdict::level_count))]
pub fn level_count(k: u32) -> Result<(), Refusal>
    ensures { result ≡ told (level_count k) }
{
    if k == 0 || k > 4 {
        return Err(Refusal::LevelCount);
    }
    Ok(())
}

// 3: edge numbers not a multiple of three, or more than 4,096 edges.
#[tactic(auto, unfolding(rules::specs::Outcomes::told, rules::specs::Verdict::when, rules::specs::Verdict::edge_count))]
pub fn edge_count(edges: &[u32]) -> Result<(), Refusal>
    ensures { result ≡ told (edge_count edges.now) }
{
    if edges.len() % 3 != 0 || edges.len() > 12288 {
        return Err(Refusal::EdgeCount);
    }
    Ok(())
}

// Whether an edge's items or its label are too large.
fn is_bad(source: u32, target: u32, label: u32, items: u32, labels: u32) -> bool
    ensures { result ≡ (leb items source || (leb items target || leb labels label)) }
{
    items <= source || items <= target || labels <= label
}

// 4: the first such edge. Link 3 has found few enough edges that its number fits.
pub fn edges_fit(items: u32, labels: u32, edges: &[u32]) -> Result<(), Refusal>
    requires { length edges.now ≤ 12288 }
    ensures { result ≡ told (edges_fit items labels edges.now) }
{
    for e in 0..edges.len() / 3 {
        if is_bad(
            edges[3 * e],
            edges[3 * e + 1],
            edges[3 * e + 2],
            items,
            labels,
        ) {
            return Err(Refusal::Edge(e as u32));
        }
    }
    Ok(())
}

// 5: fewer lent than needed.
#[tactic(auto, unfolding(rules::specs::Outcomes::told, rules::specs::Verdict::when))]
pub fn room(lent: usize, needed: usize) -> Result<(), Refusal>
    ensures { result ≡ told (when (ltb lent needed) Fault.Room) }
{
    if lent < needed {
        return Err(Refusal::Room);
    }
    Ok(())
}
