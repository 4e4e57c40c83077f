// A byte that ends no line, the run before the first byte, and whether a run has stopped.
ghost use Rattle.std.specs.Prelude.{◌≡◌, List, ℕ, ◌≤◌, length};
ghost use Rattle.machine.specs.Machine.{is_stopped, beginning, keep};
ghost use Rattle.machine.specs.Standing.{stage_of, machine_by, machine_of, TakenBy, Steps, SameLists};

use crate::{
    EDGE_ROOM, ENTRY_ROOM, LEVEL_ROOM, OUT_ROOM, PART_ROOM, Progress, Run, State, Taken, stages,
};

// At most so many digits of a line.
const MOST_DIGITS: usize = 512;

// One byte more of a line; a line over 512 digits is a bad frame at once.
pub fn keep_byte(s: State, b: u8, part: &mut [u8], out: &mut [u8]) -> Taken
    requires { (s.held ≤ 512) × (length part.old ≡ 512) × (13 ≤ length out.old) }
    ensures { (edges levels entries : List ℕ) → TakenBy (keep (machine_by s part.old edges levels entries) b) result part.new edges levels entries out.old out.new }
{
    if s.held < MOST_DIGITS {
        part[s.held] = b;
        return Taken {
            state: State {
                progress: s.progress,
                lines: s.lines,
                held: s.held + 1,
            },
            many: 0,
        };
    }
    let number = s.lines.saturating_add(1);
    let moved = stages::bad_frame(number, out);
    Taken {
        state: State {
            progress: moved.progress,
            lines: number,
            held: 0,
        },
        many: moved.many,
    }
}

impl Run {
    // No line is read yet, and nothing is held.
    pub fn start() -> Run
        ensures { machine_of result ≡ beginning }
    {
        Run {
            progress: Progress::Opening,
            lines: 0,
            held: 0,
            part: [0; PART_ROOM],
            edges: [0; EDGE_ROOM],
            levels: [0; LEVEL_ROOM],
            entries: [0; ENTRY_ROOM],
            out: [0; OUT_ROOM],
        }
    }

    // One byte more of the line in hand. Answers how many bytes of text it left. A byte that has room is kept in place, for this is done for each
    // byte of the input, and the whole state would be copied for it.
    pub fn keep_byte(&mut self, b: u8) -> usize
        ensures step { Steps (keep (machine_of self.old) b) result self.old self.new }
        ensures kept { SameLists self.old self.new }
    {
        if self.held < MOST_DIGITS {
            self.part[self.held] = b;
            self.held += 1;
            return 0;
        }
        let state = State {
            progress: self.progress,
            lines: self.lines,
            held: self.held,
        };
        let taken = keep_byte(state, b, &mut self.part, &mut self.out);
        self.progress = taken.state.progress;
        self.lines = taken.state.lines;
        self.held = taken.state.held;
        taken.many
    }

    // A run that has stopped reads nothing more, whatever follows.
    pub fn is_stopped(&self) -> bool
        ensures { result ≡ is_stopped (stage_of self.now) }
    {
        matches!(self.progress, Progress::Stopped)
    }
}
