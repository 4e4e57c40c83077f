// Build and check.
use cases::case::Case;
use rules::Report;

pub fn build(case: &mut Case<'_>) -> Report {
    let [items, labels, k] = case.numbers;
    reports::report_built(index::build(
        items,
        labels,
        k,
        case.edges.numbers(),
        case.levels.numbers_mut(),
        case.starts.numbers_mut(),
        case.order.numbers_mut(),
        case.entries.numbers_mut(),
        case.area.numbers_mut(),
    ))
}

pub fn check(case: &mut Case<'_>) -> Report {
    let [items, labels, k] = case.numbers;
    reports::report_checked(index::check(
        items,
        labels,
        k,
        case.edges.numbers(),
        case.levels.numbers(),
        case.starts.numbers(),
        case.order.numbers(),
        case.entries.numbers(),
        case.area.numbers_mut(),
    ))
}
