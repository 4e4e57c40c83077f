// The seven entries for C and for languages that call C: numbers and slices only, a slice being a pointer and its number of elements. Each calls
// the entry of the crate index and hands its answer over as numbers. The crate abi_c exports them, and include/kavizhuran.h declares them.

#![tactic(auto)]

ghost use Rattle.std.specs.Prelude.{◌≡◌, ◌%◌, ◌^◌};
ghost use Rattle.rules.specs.Numbers.{of_bounds};
ghost use Rattle.rules.specs.Outcomes.{direct, stored, class};
ghost use Rattle.rules.specs.Calls.{direct_call, stored_call, class_call};
ghost use Rattle.rules.specs.Calls.{build_call, check_call};
ghost use Rattle.abi.specs.Handed.{handed, narrowed, HandsBuilt, HandsChecked, HandsAnswered, HandsBounds, HandsRun};

use rules::{Part, Refusal, Report};

// An answer for C: the number of document 01's table, 0 where nothing is refused, and up to three values, 0 where the table names none.
#[repr(C)]
#[derive(Clone, Copy)]
pub struct KvResult {
    pub number: u32,
    pub a: u32,
    pub b: u32,
    pub c: u32,
}

// An answer's numbers, laid out for C.
fn hand(report: Report) -> KvResult
    ensures { result ≡ handed report }
{
    KvResult {
        number: report.number,
        a: report.a,
        b: report.b,
        c: report.c,
    }
}

// The number modulo 2³².
fn narrow(x: usize) -> u32
    ensures { result ≡ x % 2 ^ 32 }
{
    (x & 0xffffffff) as u32
}

// The bounds of a part, modulo 2³², or the refusal. Only bounds in a list of 2³² numbers or more are changed by it.
fn hand_bounds(bounds: Result<Part, Refusal>) -> KvResult
    ensures { result ≡ handed (of_bounds (narrowed bounds)) }
{
    match bounds {
        Ok(part) => KvResult {
            number: 0,
            a: 0,
            b: narrow(part.from),
            c: narrow(part.to),
        },
        Err(refusal) => hand(reports::report_refusal(refusal)),
    }
}

// Build: a, b, c are the numbers of classes, of connected pairs and of entries; at 6 a is the need.
pub fn kv_build(
    items: u32,
    labels: u32,
    k: u32,
    edges: &[u32],
    levels: &mut [u32],
    starts: &mut [u32],
    order: &mut [u32],
    entries: &mut [u32],
    area: &mut [u8],
) -> KvResult
    ensures { HandsBuilt (build_call items labels k edges.now levels.old starts.old order.old entries.old area.old) result levels.new starts.new order.new entries.new area.new }
{
    let built = index::build(
        items, labels, k, edges, levels, starts, order, entries, area,
    );
    hand(reports::report_built(built))
}

// Check: the level and position, the list and index, or the index, of the first fault.
pub fn kv_check(
    items: u32,
    labels: u32,
    k: u32,
    edges: &[u32],
    levels: &[u32],
    starts: &[u32],
    order: &[u32],
    entries: &[u32],
    area: &mut [u8],
) -> KvResult
    ensures { HandsChecked (check_call items labels k edges.now levels.now starts.now order.now entries.now area.old) result area.new }
{
    let checked = index::check(
        items, labels, k, edges, levels, starts, order, entries, area,
    );
    hand(reports::report_checked(checked))
}

// Direct answer: a is the number of answers written.
pub fn kv_direct(
    items: u32,
    labels: u32,
    edges: &[u32],
    tokens: &[u8],
    answers: &mut [u32],
    area: &mut [u8],
) -> KvResult
    ensures { HandsAnswered (direct (direct_call items labels edges.now tokens.now answers.old area.old)) result answers.new area.new }
{
    let answered = index::direct(items, labels, edges, tokens, answers, area);
    hand(reports::report_answered(answered))
}

// Stored answer: a is the number of answers written.
pub fn kv_stored(
    items: u32,
    labels: u32,
    table: &[u32],
    entries: &[u32],
    tokens: &[u8],
    answers: &mut [u32],
    area: &mut [u8],
) -> KvResult
    ensures { HandsAnswered (stored (stored_call items labels table.now entries.now tokens.now answers.old area.old)) result answers.new area.new }
{
    let answered = index::stored(items, labels, table, entries, tokens, answers, area);
    hand(reports::report_answered(answered))
}

// Class answer: a is the number of class numbers written.
pub fn kv_class(
    items: u32,
    labels: u32,
    k: u32,
    table: &[u32],
    entries: &[u32],
    tokens: &[u8],
    answers: &mut [u32],
    area: &mut [u8],
) -> KvResult
    ensures { HandsAnswered (class (class_call items labels k table.now entries.now tokens.now answers.old area.old)) result answers.new area.new }
{
    let answered = index::class_answer(items, labels, k, table, entries, tokens, answers, area);
    hand(reports::report_answered(answered))
}

// Pairs of a class: b and c are the bounds of the part in the order list.
pub fn kv_pairs(c: u32, starts: &[u32], order: &[u32]) -> KvResult
    ensures { HandsBounds c starts.now order.now result }
{
    hand_bounds(index::class_bounds(c, starts, order))
}

// Sequence lookup: b and c are the bounds of the part in the entry list, in numbers; at 8 a is the place.
pub fn kv_lookup(symbols: &[u8], entries: &[u32]) -> KvResult
    ensures { HandsRun symbols.now entries.now result }
{
    hand_bounds(index::lookup_bounds(symbols, entries))
}
