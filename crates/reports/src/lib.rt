// The paper's number and values for each answer, as document 01's table has them. Functions and no `From`: `Report` is a type of
// `rules`, and a crate writes no impl of another crate's trait for another crate's type.

#![tactic(auto)]

ghost use Rattle.std.specs.Prelude.{◌≡◌};
ghost use Rattle.rules.specs.Numbers.{report, of_refusal, of_built, of_checked, of_answered};

use rules::{Counts, Refusal, Report};

fn numbers(number: u32, a: u32, b: u32) -> Report
    ensures { result ≡ report number a b 0 }
{
    Report { number, a, b, c: 0 }
}

// A refusal's number and values.
#[tactic(auto, unfolding(rules::specs::Numbers::of_refusal))]
pub fn report_refusal(r: Refusal) -> Report
    ensures { result ≡ of_refusal r }
{
    match r {
        Refusal::Sizes => numbers(1, 0, 0),
        Refusal::LevelCount => numbers(2, 0, 0),
        Refusal::EdgeCount => numbers(3, 0, 0),
        Refusal::Edge(edge) => numbers(4, edge, 0),
        Refusal::Room => numbers(5, 0, 0),
        Refusal::EntryRoom(need) => numbers(6, need, 0),
        Refusal::QueryLength => numbers(7, 0, 0),
        Refusal::Unknown(place) => numbers(8, place, 0),
        Refusal::FewOperands(place) => numbers(9, place, 0),
        Refusal::NinthOperand(place) => numbers(10, place, 0),
        Refusal::OperandsLeft => numbers(11, 0, 0),
        Refusal::TooLong => numbers(12, 0, 0),
        Refusal::AnswerRoom(need) => numbers(13, need, 0),
        Refusal::NoClass => numbers(14, 0, 0),
        Refusal::LevelFault(level, position) => numbers(15, level, position),
        Refusal::ListFault(list, index) => numbers(16, list, index),
        Refusal::EntryFault(index) => numbers(17, index, 0),
        Refusal::Frame(line) => numbers(18, line, 0),
    }
}

// Build: the number of classes, of connected pairs and of entries, or the refusal.
#[tactic(auto, unfolding(rules::specs::Numbers::of_built))]
pub fn report_built(answer: Result<Counts, Refusal>) -> Report
    ensures { result ≡ of_built answer }
{
    match answer {
        Ok(counts) => Report {
            number: 0,
            a: counts.classes,
            b: counts.pairs,
            c: counts.entries,
        },
        Err(refusal) => report_refusal(refusal),
    }
}

// Check: 0, or the refusal.
#[tactic(auto, unfolding(rules::specs::Numbers::of_checked))]
pub fn report_checked(answer: Result<(), Refusal>) -> Report
    ensures { result ≡ of_checked answer }
{
    match answer {
        Ok(()) => numbers(0, 0, 0),
        Err(refusal) => report_refusal(refusal),
    }
}

// Direct, stored and class answer: how many answers, or the refusal.
#[tactic(auto, unfolding(rules::specs::Numbers::of_answered))]
pub fn report_answered(answer: Result<u32, Refusal>) -> Report
    ensures { result ≡ of_answered answer }
{
    match answer {
        Ok(many) => numbers(0, many, 0),
        Err(refusal) => report_refusal(refusal),
    }
}
