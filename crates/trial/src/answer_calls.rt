// Direct, stored and class answer.
use cases::case::Case;
use rules::Report;

pub fn direct(case: &mut Case<'_>) -> Report {
    let [items, labels, _] = case.numbers;
    reports::report_answered(index::direct(
        items,
        labels,
        case.edges.numbers(),
        case.tokens.numbers(),
        case.answers.numbers_mut(),
        case.area.numbers_mut(),
    ))
}

pub fn stored(case: &mut Case<'_>) -> Report {
    let [items, labels, _] = case.numbers;
    reports::report_answered(index::stored(
        items,
        labels,
        case.starts.numbers(),
        case.entries.numbers(),
        case.tokens.numbers(),
        case.answers.numbers_mut(),
        case.area.numbers_mut(),
    ))
}

pub fn class(case: &mut Case<'_>) -> Report {
    let [items, labels, k] = case.numbers;
    reports::report_answered(index::class_answer(
        items,
        labels,
        k,
        case.starts.numbers(),
        case.entries.numbers(),
        case.tokens.numbers(),
        case.answers.numbers_mut(),
        case.area.numbers_mut(),
    ))
}
