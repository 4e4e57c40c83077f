// What a case of each letter has: how many numbers, and which lists, in the order of the line (docs/TRIAL.md).

// The entry that a letter names.
#[derive(Clone, Copy)]
pub enum Letter {
    Build,
    Check,
    Direct,
    Stored,
    Class,
    Pairs,
    Lookup,
}

// The table of an answer is that of the starts, and symbols are that of the tokens: no case has both.
#[derive(Clone, Copy)]
pub enum List {
    Edges,
    Levels,
    Starts,
    Order,
    Entries,
    Tokens,
    Answers,
    Area,
}

impl Letter {
    // The entry that a byte names.
    pub fn of(byte: u8) -> Option<Letter> {
        match byte {
            b'B' => Some(Letter::Build),
            b'C' => Some(Letter::Check),
            b'D' => Some(Letter::Direct),
            b'S' => Some(Letter::Stored),
            b'K' => Some(Letter::Class),
            b'P' => Some(Letter::Pairs),
            b'L' => Some(Letter::Lookup),
            _ => None,
        }
    }

    // How many numbers the entry takes.
    pub fn numbers(self) -> usize {
        match self {
            Letter::Build | Letter::Check | Letter::Class => 3,
            Letter::Direct | Letter::Stored => 2,
            Letter::Pairs => 1,
            Letter::Lookup => 0,
        }
    }

    pub fn lists(self) -> &'static [List] {
        match self {
            Letter::Build | Letter::Check => &[
                List::Edges,
                List::Levels,
                List::Starts,
                List::Order,
                List::Entries,
                List::Area,
            ],
            Letter::Direct => &[List::Edges, List::Tokens, List::Answers, List::Area],
            Letter::Stored | Letter::Class => &[
                List::Starts,
                List::Entries,
                List::Tokens,
                List::Answers,
                List::Area,
            ],
            Letter::Pairs => &[List::Starts, List::Order],
            Letter::Lookup => &[List::Tokens, List::Entries],
        }
    }
}
