// The functions of the crate abi for a linker: exported under their own names, by the C calling convention. Each calls the function of abi
// that has its name, and promises the same. include/kavizhuran.h declares them.

#![tactic(auto)]

ghost use Rattle.rules.specs.Outcomes.{direct, stored, class};
ghost use Rattle.rules.specs.Calls.{direct_call, stored_call, class_call, build_call, check_call};
ghost use Rattle.abi.specs.Handed.{HandsBuilt, HandsChecked, HandsAnswered, HandsBounds, HandsRun};

use abi::KvResult;

// Build: a, b, c are the numbers of classes, of connected pairs and of entries; at 6 a is the need.
#[unsafe(no_mangle)]
pub extern "C" fn kv_build(
    items: u32,
    labels: u32,
    k: u32,
    edges: &[u32],
    levels: &mut [u32],
    starts: &mut [u32],
    order: &mut [u32],
    entries: &mut [u32],
    area: &mut [u8],
) -> KvResult
    ensures { HandsBuilt (build_call items labels k edges.now levels.old starts.old order.old entries.old area.old) result levels.new starts.new order.new entries.new area.new }
{
    abi::kv_build(
        items, labels, k, edges, levels, starts, order, entries, area,
    )
}

// Check: the level and position, the list and index, or the index, of the first fault.
#[unsafe(no_mangle)]
pub extern "C" fn kv_check(
    items: u32,
    labels: u32,
    k: u32,
    edges: &[u32],
    levels: &[u32],
    starts: &[u32],
    order: &[u32],
    entries: &[u32],
    area: &mut [u8],
) -> KvResult
    ensures { HandsChecked (check_call items labels k edges.now levels.now starts.now order.now entries.now area.old) result area.new }
{
    abi::kv_check(
        items, labels, k, edges, levels, starts, order, entries, area,
    )
}

// Direct answer: a is the number of answers written.
#[unsafe(no_mangle)]
pub extern "C" fn kv_direct(
    items: u32,
    labels: u32,
    edges: &[u32],
    tokens: &[u8],
    answers: &mut [u32],
    area: &mut [u8],
) -> KvResult
    ensures { HandsAnswered (direct (direct_call items labels edges.now tokens.now answers.old area.old)) result answers.new area.new }
{
    abi::kv_direct(items, labels, edges, tokens, answers, area)
}

// Stored answer: a is the number of answers written.
#[unsafe(no_mangle)]
pub extern "C" fn kv_stored(
    items: u32,
    labels: u32,
    table: &[u32],
    entries: &[u32],
    tokens: &[u8],
    answers: &mut [u32],
    area: &mut [u8],
) -> KvResult
    ensures { HandsAnswered (stored (stored_call items labels table.now entries.now tokens.now answers.old area.old)) result answers.new area.new }
{
    abi::kv_stored(items, labels, table, entries, tokens, answers, area)
}

// Class answer: a is the number of class numbers written.
#[unsafe(no_mangle)]
pub extern "C" fn kv_class(
    items: u32,
    labels: u32,
    k: u32,
    table: &[u32],
    entries: &[u32],
    tokens: &[u8],
    answers: &mut [u32],
    area: &mut [u8],
) -> KvResult
    ensures { HandsAnswered (class (class_call items labels k table.now entries.now tokens.now answers.old area.old)) result answers.new area.new }
{
    abi::kv_class(items, labels, k, table, entries, tokens, answers, area)
}

// Pairs of a class: b and c are the bounds of the part in the order list.
#[unsafe(no_mangle)]
pub extern "C" fn kv_pairs(c: u32, starts: &[u32], order: &[u32]) -> KvResult
    ensures { HandsBounds c starts.now order.now result }
{
    abi::kv_pairs(c, starts, order)
}

// Sequence lookup: b and c are the bounds of the part in the entry list, in numbers; at 8 a is the place.
#[unsafe(no_mangle)]
pub extern "C" fn kv_lookup(symbols: &[u8], entries: &[u32]) -> KvResult
    ensures { HandsRun symbols.now entries.now result }
{
    abi::kv_lookup(symbols, entries)
}
