// What `answer` reads and prints: what a line says, and the lines of the output.

#![tactic(auto)]

pub mod frames; // what a line says
pub mod texts; // the lines of the output

// What a line says.
#[derive(Clone, Copy)]
pub enum Frame {
    // 01
    Sizes {
        items: u32,
        labels: u32,
        k: u32,
    },
    // 02
    Edge {
        source: u32,
        target: u32,
        label: u32,
    },
    // 03: its tokens stand in the line
    Query,
    // any other line
    Faulty,
}
