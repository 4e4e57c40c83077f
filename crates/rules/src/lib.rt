// What the entries answer and refuse, what a token says, and an answer as the paper's numbers. The rules themselves stand in specs/.

#![tactic(auto)]

// A refusal: a variant for each number of document 01's table, with the values that the table names.
#[derive(Clone, Copy)]
pub enum Refusal {
    // 1: more than 128 items, or not 1 to 8 labels
    Sizes,
    // 2: k is not 1 to 4
    LevelCount,
    // 3: edge numbers not a multiple of three, or more than 4,096 edges
    EdgeCount,
    // 4: the first edge with an item or a label that is too large
    Edge(u32),
    // 5: a lent list is too short
    Room,
    // 6: as many entries are needed
    EntryRoom(u32),
    // 7: no token, or more than 64
    QueryLength,
    // 8: the place of an unknown token or symbol
    Unknown(u32),
    // 9: the place of a join or conjunction with fewer than two operands waiting
    FewOperands(u32),
    // 10: the place of a ninth operand
    NinthOperand(u32),
    // 11: more than one operand is left
    OperandsLeft,
    // 12: the diameter is over k, or a sequence has more than four symbols
    TooLong,
    // 13: as many answers are needed
    AnswerRoom(u32),
    // 14: there is no such class in the lists
    NoClass,
    // 15: the level, and its first faulty position
    LevelFault(u32, u32),
    // 16: the list, 1 starts and 2 order, and the index
    ListFault(u32, u32),
    // 17: the index in the entry list
    EntryFault(u32),
    // 18: the line of the program's input
    Frame(u32),
}

// The lists that say which pairs a class has.
#[derive(Clone, Copy)]
pub enum ClassList {
    Starts,
    Order,
}

// What a token byte says.
#[derive(Clone, Copy)]
pub enum Token {
    Identity,
    Step(u8),
    Join,
    Conjunction,
    Unknown,
}

// What build answers: how many classes, connected pairs and entries there are.
#[derive(Clone, Copy)]
pub struct Counts {
    pub classes: u32,
    pub pairs: u32,
    pub entries: u32,
}

// A part of the caller's list, from the first index up to but without the second.
#[derive(Clone, Copy)]
pub struct Part {
    pub from: usize,
    pub to: usize,
}

// An answer as numbers: document 01's number and up to three values, 0 where the table names none.
#[derive(Clone, Copy)]
pub struct Report {
    pub number: u32,
    pub a: u32,
    pub b: u32,
    pub c: u32,
}
