// From a case to a line: what the entry returned, then each list.
use crate::case::Case;
use crate::letters::{Letter, List};
use rules::Report;
use std::fmt::Display;
use std::io::{Result, Write};

// As many equal numbers, as a run from three on.
fn put_run<T: Display + Copy>(out: &mut impl Write, many: usize, x: T) -> Result<()> {
    match many {
        1 => write!(out, " {x}"),
        2 => write!(out, " {x} {x}"),
        _ => write!(out, " {many}*{x}"),
    }
}

// A list's count and its numbers.
fn put_list<T: Display + Copy + PartialEq>(out: &mut impl Write, list: &[T]) -> Result<()> {
    let count = list.len();
    write!(out, " {count}")?;
    for run in list.chunk_by(|a, b| a == b) {
        if let Some(x) = run.first() {
            put_run(out, run.len(), *x)?;
        }
    }
    Ok(())
}

impl Case<'_> {
    fn put(&self, list: List, out: &mut impl Write) -> Result<()> {
        match list {
            List::Edges => put_list(out, self.edges.numbers()),
            List::Levels => put_list(out, self.levels.numbers()),
            List::Starts => put_list(out, self.starts.numbers()),
            List::Order => put_list(out, self.order.numbers()),
            List::Entries => put_list(out, self.entries.numbers()),
            List::Tokens => put_list(out, self.tokens.numbers()),
            List::Answers => put_list(out, self.answers.numbers()),
            List::Area => put_list(out, self.area.numbers()),
        }
    }
}

// An answer is written as soon as it is whole.
pub fn print_case(
    out: &mut impl Write,
    letter: Letter,
    report: Report,
    case: &Case<'_>,
) -> Result<()> {
    let Report { number, a, b, c } = report;
    write!(out, "{number} {a} {b} {c}")?;
    for list in letter.lists() {
        case.put(*list, out)?;
    }
    write!(out, "\n")?;
    out.flush()
}
