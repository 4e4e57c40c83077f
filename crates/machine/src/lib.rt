// The run of `answer`, and its steps that need no tables.

#![tactic(auto)]

ghost use Rattle.std.specs.Prelude.{◌<◌, ◌≤◌, ◌≡◌, length};

pub mod bytes; // a byte that ends no line, and the run before the first
pub mod stages; // what a line that is no query does

// The room for a line, for 1,024 edges, for four levels of 32 items, for 2,048 entries, and for the 81 line with the longest answer behind it.
pub const PART_ROOM: usize = 512;

pub const EDGE_ROOM: usize = 3072;

pub const LEVEL_ROOM: usize = 4096;

pub const ENTRY_ROOM: usize = 4096;

pub const OUT_ROOM: usize = 4118;

// What 01 says.
#[derive(Clone, Copy)]
pub struct Sizes {
    pub items: u32,
    pub labels: u32,
    pub k: u32,
}

// Behind 01: how many edges came so far.
#[derive(Clone, Copy)]
pub struct Gathered {
    pub sizes: Sizes,
    pub edges: usize,
    pub ghost few_items: { sizes.items ≤ 32 },
    pub ghost few_edges: { edges ≤ 1024 },
}

// The tables are built: how many numbers their entries are.
#[derive(Clone, Copy)]
pub struct Tables {
    pub sizes: Sizes,
    pub entries: usize,
    pub ghost few_items: { sizes.items ≤ 32 },
    pub ghost some_level: { 0 < sizes.k },
    pub ghost few_levels: { sizes.k ≤ 4 },
    pub ghost entries_fit: { entries ≤ 4096 },
}

// How far the run has come.
#[derive(Clone, Copy)]
pub enum Progress {
    // no line yet
    Opening,
    // 01 was read
    Gathering(Gathered),
    // the tables are built
    Answering(Tables),
    // the rest is unread
    Stopped,
}

// What a line came to: the progress behind it, and how many bytes of text stand at the front of the output.
#[derive(Clone, Copy)]
pub struct Moved {
    pub progress: Progress,
    pub many: usize,
}

// What is kept between two bytes beside the lists: the progress, the number of lines so far, and how many bytes of the line in hand are held.
#[derive(Clone, Copy)]
pub struct State {
    pub progress: Progress,
    pub lines: u32,
    pub held: usize,
}

// What a byte came to: the state behind it, and how many bytes of text stand at the front of the output.
#[derive(Clone, Copy)]
pub struct Taken {
    pub state: State,
    pub many: usize,
}

// All that the run keeps: its progress, the number of lines so far, the line in hand, and the lists that it fills. A text stands at the front
// of the output. Nothing is allocated: each list has its room from the start.
#[derive(Drop)]
pub struct Run {
    pub progress: Progress,
    pub lines: u32,
    pub held: usize,
    pub part: [u8; PART_ROOM],
    pub edges: [u32; EDGE_ROOM],
    pub levels: [u32; LEVEL_ROOM],
    pub entries: [u32; ENTRY_ROOM],
    pub out: [u8; OUT_ROOM],
    pub ghost held_fits: { held ≤ 512 },
    pub ghost part_room: { length part ≡ 512 },
    pub ghost edge_room: { length edges ≡ 3072 },
    pub ghost level_room: { length levels ≡ 4096 },
    pub ghost entry_room: { length entries ≡ 4096 },
    pub ghost out_room: { length out ≡ 4118 },
}
