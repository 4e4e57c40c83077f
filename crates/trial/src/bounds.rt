// Pairs of a class and sequence lookup: the bounds of a part, and the part itself.
use cases::case::Case;
use rules::{Part, Refusal, Report};

// No list is so long that a bound does not fit.
fn narrow(bound: usize) -> u32 {
    u32::try_from(bound).unwrap_or(u32::MAX)
}

// What the bounds say. Where the part that is handed out is not what they name, or is not empty where the entry refuses, what no entry
// returns.
fn report_part(bounds: Result<Part, Refusal>, part: &[u32], list: &[u32]) -> Report {
    match bounds {
        Ok(Part { from, to }) if list.get(from..to) == Some(part) => Report {
            number: 0,
            a: 0,
            b: narrow(from),
            c: narrow(to),
        },
        Err(refusal) if part.is_empty() => reports::report_refusal(refusal),
        _ => Report {
            number: 0,
            a: 1,
            b: 0,
            c: 0,
        },
    }
}

pub fn pairs(case: &Case<'_>) -> Report {
    let [class, _, _] = case.numbers;
    let starts = case.starts.numbers();
    let order = case.order.numbers();
    report_part(
        index::class_bounds(class, starts, order),
        index::class_pairs(class, starts, order),
        order,
    )
}

pub fn lookup(case: &Case<'_>) -> Report {
    let symbols = case.tokens.numbers();
    let entries = case.entries.numbers();
    report_part(
        index::lookup_bounds(symbols, entries),
        index::lookup(symbols, entries),
        entries,
    )
}
