// The orders of refusals of the three answers before any work. Each is left at the first link that refuses.
ghost use Rattle.std.specs.Prelude.{◌≡◌, ℕ, ◌*◌, ◌≤◌, List};
ghost use Rattle.rules.specs.Outcomes.{told, direct_refusal, stored_refusal, class_refusal};
ghost use Rattle.rules.specs.Calls.{direct_call, stored_call, class_call};

use crate::links;
use rules::Refusal;
use tokens::reading;

// How many pairs the items have.
pub fn pairs(items: u32) -> usize
    requires { items ≤ 128 }
    ensures { (result ≡ items * items) × (result ≤ 16384) }
{
    let n = items as usize;
    n * n
}

// Direct answer: 1 3 4 7, the first faulty token, 11, 5.
pub fn direct_chain(
    items: u32,
    labels: u32,
    edges: &[u32],
    tokens: &[u8],
    area: &[u8],
) -> Result<(), Refusal>
    ensures { (answers : List ℕ) → result ≡ told (direct_refusal (direct_call items labels edges.now tokens.now answers area.now)) }
{
    links::sizes(items, labels)?;
    links::edge_count(edges)?;
    links::edges_fit(items, labels, edges)?;
    reading::read_tokens(tokens, labels)?;
    let needed = 9 * pairs(items);
    links::room(area.len(), needed)
}

// Stored answer: 1, 7, the first faulty token, 11, 5.
pub fn stored_chain(
    items: u32,
    labels: u32,
    table: &[u32],
    tokens: &[u8],
    area: &[u8],
) -> Result<(), Refusal>
    ensures { (entries answers : List ℕ) → result ≡ told (stored_refusal (stored_call items labels table.now entries tokens.now answers area.now)) }
{
    links::sizes(items, labels)?;
    reading::read_tokens(tokens, labels)?;
    links::room(area.len(), 9 * pairs(items))?;
    links::room(table.len(), pairs(items))
}

// Class answer: 1, 2, 7, the first faulty token, 11, 12, 5.
pub fn class_chain(
    items: u32,
    labels: u32,
    k: u32,
    table: &[u32],
    tokens: &[u8],
    area: &[u8],
) -> Result<(), Refusal>
    ensures { (entries answers : List ℕ) → result ≡ told (class_refusal (class_call items labels k table.now entries tokens.now answers area.now)) }
{
    links::sizes(items, labels)?;
    links::level_count(k)?;
    let diameter = reading::read_tokens(tokens, labels)?;
    if k < diameter {
        return Err(Refusal::TooLong);
    }
    links::room(area.len(), 9 * pairs(items))?;
    links::room(table.len(), pairs(items))
}
