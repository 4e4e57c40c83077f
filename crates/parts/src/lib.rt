// Pairs of a class and sequence lookup: the bounds of a part of the caller's list or the refusal, and the part itself.

#![tactic(auto)]

ghost use Rattle.std.specs.Prelude.{◌≡◌, ◌≤◌, ◌<◌, length, MatchOption};
ghost use Rattle.std.proofs.Math.Seq.{slice};
ghost use Rattle.rules.specs.Lists.{code_from};
ghost use Rattle.rules.specs.Outcomes.{run_bounds, part_of};
ghost use Rattle.rules.specs.Promises.{GivesPairs, HandsPairs, LooksUp, HandsEntries};
ghost use Rattle.parts.specs.Parts.{first_unknown, Inside};

use rules::{Part, Refusal};
use stored::runs;

// Where the pairs of class c stand in the order list, or 14.
pub fn class_bounds(c: u32, starts: &[u32], order: &[u32]) -> Result<Part, Refusal>
    ensures { GivesPairs c starts.now order.now result }
{
    let at = c as usize;
    if at == 0 {
        return Err(Refusal::NoClass);
    }
    if starts.len() <= at {
        return Err(Refusal::NoClass);
    }
    let from = starts[at - 1] as usize;
    let to = starts[at] as usize;
    if to < from {
        return Err(Refusal::NoClass);
    }
    if order.len() < to {
        return Err(Refusal::NoClass);
    }
    Ok(Part { from, to })
}

// The numbers from `from` up to but without `to`.
fn between(list: &[u32], from: usize, to: usize) -> &[u32]
    requires { (from ≤ to) × (to ≤ length list.now) }
    ensures { result.now ≡ slice from to list.now }
{
    &list[from..to]
}

// The part of the list that bounds inside it give, empty on a refusal.
fn part_of(list: &[u32], bounds: Result<Part, Refusal>) -> &[u32]
    requires { Inside bounds list.now }
    ensures { result.now ≡ part_of list.now bounds }
{
    match bounds {
        Ok(part) => between(list, part.from, part.to),
        Err(_) => &list[..0],
    }
}

// The pairs of class c: the part of the order list, empty on a refusal.
pub fn class_pairs<'a>(c: u32, starts: &[u32], order: &'a [u32]) -> &'a [u32]
    ensures { HandsPairs c starts.now order.now result.now }
{
    let bounds = class_bounds(c, starts, order);
    part_of(order, bounds)
}

// The place of the first symbol that is not 1 to 16.
fn first_unknown(symbols: &[u8]) -> Option<usize>
    ensures { MatchOption result (length symbols.now ≡ first_unknown symbols.now) (λ i. (i ≡ first_unknown symbols.now) × (i < length symbols.now)) }
{
    for (i, symbol) in symbols.iter().enumerate() {
        if *symbol == 0 {
            return Some(i);
        }
        if *symbol > 16 {
            return Some(i);
        }
    }
    None
}

// The code of a sequence.
fn code_of(symbols: &[u8]) -> u32
    requires { length symbols.now ≤ 4 }
    ensures { result ≡ code_from 0 symbols.now }
{
    let mut code: u32 = 0;
    for symbol in symbols {
        code = code * 17 + u32::from(*symbol);
    }
    code
}

// Where the run of a code stands in the entry list; 0 and 0 if there is none.
fn run_bounds(entries: &[u32], code: u32) -> Result<Part, Refusal>
    ensures { result ≡ run_bounds entries.now code }
{
    let from = runs::first_entry(entries, code);
    if from >= entries.len() / 2 {
        return Ok(Part { from: 0, to: 0 });
    }
    let to = runs::run_end(entries, code, from);
    let first = 2 * from;
    let end = 2 * to;
    Ok(Part {
        from: first,
        to: end,
    })
}

// Where the entries of a sequence of symbols stand in the entry list, or 12 or 8.
pub fn lookup_bounds(symbols: &[u8], entries: &[u32]) -> Result<Part, Refusal>
    ensures { LooksUp symbols.now entries.now result }
{
    if symbols.len() > 4 {
        return Err(Refusal::TooLong);
    }
    if let Some(bad) = first_unknown(symbols) {
        return Err(Refusal::Unknown(bad as u32));
    }
    run_bounds(entries, code_of(symbols))
}

// The entries of a sequence of symbols: the part of the entry list, empty on a refusal.
pub fn lookup<'a>(symbols: &[u8], entries: &'a [u32]) -> &'a [u32]
    ensures { HandsEntries symbols.now entries.now result.now }
{
    let bounds = lookup_bounds(symbols, entries);
    part_of(entries, bounds)
}
