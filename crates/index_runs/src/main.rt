// Document 01's examples P6 to P10 and P12, run through the three answers. A line for each: which answer, the number and value that it
// returns, the lent answer list afterwards, and how many bytes of the lent area are not zero.

#![tactic(auto)]

use rules::Refusal;
use std::io;

const EDGES: [u32; 9] = [0, 2, 0, 1, 2, 0, 3, 2, 1];

// The table of level 2, and the entries for k = 2.
const TABLE: [u32; 16] = [1, 2, 3, 4, 2, 1, 3, 4, 5, 5, 6, 7, 8, 8, 9, 10];

const ENTRIES: [u32; 28] = [
    0, 1, 0, 6, 0, 10, 1, 3, 2, 5, 3, 9, 4, 7, 19, 1, 19, 2, 21, 4, 35, 6, 53, 8, 55, 10, 71, 6,
];

fn print_run(
    rt: &impl Print,
    name: &str,
    answer: Result<u32, Refusal>,
    answers: &[u32],
    area: &[u8],
) -> io::Result<()> {
    let report = reports::report_answered(answer);
    let number = report.number;
    let a = report.a;
    print!(rt; "{name} {number} {a}:")?;
    for x in answers {
        print!(rt; " {x}")?;
    }
    let set = area.iter().filter(|byte| **byte != 0).count();
    println!(rt; "; {set}")
}

// One call, with so many lent answers.
fn run<F: FnOnce(&mut [u32], &mut [u8]) -> Result<u32, Refusal>>(
    rt: &impl Print,
    name: &str,
    answers: &mut [u32],
    call: F,
) -> io::Result<()>
    requires { F.IsAlwaysCallable call }
{
    let mut area = [7u8; 150];
    let answer = call(answers, &mut area);
    print_run(rt, name, answer, answers, &area)
}

// The direct, the stored and the class answer.
fn run_each(rt: &impl Print, tokens: &[u8]) -> io::Result<()> {
    run(rt, "direct", &mut [99; 5], |answers, area| {
        index::direct(4, 2, &EDGES, tokens, answers, area)
    })?;
    run(rt, "stored", &mut [99; 5], |answers, area| {
        index::stored(4, 2, &TABLE, &ENTRIES, tokens, answers, area)
    })?;
    run(rt, "class", &mut [99; 5], |answers, area| {
        index::class_answer(4, 2, 2, &TABLE, &ENTRIES, tokens, answers, area)
    })
}

fn main(rt: HostRuntime) -> io::Result<()> {
    // P6
    run_each(&rt, b"\x01\x02\x20")?;
    // P7
    run_each(&rt, b"\x01\x02\x20\x01\x20")?;
    // P8
    run_each(&rt, b"\x05")?;
    // P9
    run_each(&rt, b"\x01\x20")?;
    // P10
    run_each(&rt, b"\x01\x02")?;
    // P12: no items, no edges
    run(&rt, "direct", &mut [99; 5], |answers, area| {
        index::direct(0, 2, &[], b"\x00", answers, area)
    })?;
    // P6 with room for three answers: 13
    run(&rt, "direct", &mut [99; 3], |answers, area| {
        index::direct(4, 2, &EDGES, b"\x01\x02\x20", answers, area)
    })
}
