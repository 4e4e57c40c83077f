// Reads library cases as text from standard input, one a line, calls the entry that each names and prints what it returned and every
// lent list afterwards (docs/TRIAL.md). Behind a line that is no case it prints `no case` and stops.

#![tactic(auto)]

// direct, stored and class answer
mod answer_calls;
// build and check
mod table_calls;
// pairs of a class, and sequence lookup
mod bounds;
// a case of any letter
mod calls;

use cases::case::Case;
use cases::lists::Lent;
use cases::output::Output;
use cases::source::Input;
use std::io::Result;

// A list is lent with the room that the longest of its kind takes (docs/TRIAL.md).
fn main(rt: HostRuntime) -> Result<()> {
    let mut edges = [0u32; 12300];
    let mut levels = [0u32; 66572];
    let mut starts = [0u32; 16650];
    let mut order = [0u32; 16650];
    let mut entries = [0u32; 40000];
    let mut tokens = [0u8; 80];
    let mut answers = [0u32; 16700];
    let mut area = [0u8; 149785];
    let mut case = Case {
        numbers: [0; 3],
        edges: Lent::new(&mut edges),
        levels: Lent::new(&mut levels),
        starts: Lent::new(&mut starts),
        order: Lent::new(&mut order),
        entries: Lent::new(&mut entries),
        tokens: Lent::new(&mut tokens),
        answers: Lent::new(&mut answers),
        area: Lent::new(&mut area),
    };
    let mut input = [0u8; 65536];
    let mut output = [0u8; 65536];
    let mut stdin = rt.stdin();
    let mut stdout = rt.stdout();
    let mut source = Input::new(&mut stdin, &mut input);
    let mut out = Output::new(&mut stdout, &mut output);
    calls::answer_lines(&mut source, &mut case, &mut out)
}
