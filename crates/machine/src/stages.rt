// The turns of the run that need no tables: 01, 02 and a bad frame. Each is a function over what it needs alone, and a method that lends it the run's.
ghost use Rattle.std.specs.Prelude.{◌≡◌, List, ℕ, ◌≤◌, length};
ghost use Rattle.machine.specs.Machine.{stops, bad_frame, on_sizes, on_edge};
ghost use Rattle.machine.specs.Standing.{stage_by, stage_of, MovedBy, Comes, SameLists, SameLine};

use crate::{Gathered, Moved, Progress, Run, Sizes};
use format::texts;
use rules::Refusal;

// At most so many items, and edges.
const MOST_ITEMS: u32 = 32;

const MOST_EDGES: usize = 1024;

// The bytes of a refusal's line.
pub const REFUSAL_BYTES: usize = 13;

// A refusal that stops the program: it is printed, and no later line is read.
pub fn stop(refusal: Refusal, out: &mut [u8]) -> Moved
    requires { 13 ≤ length out.old }
    ensures { (edges levels entries : List ℕ) → MovedBy (stops refusal) result edges levels entries out.old out.new }
{
    texts::put_refusal(out, 0, refusal);
    Moved {
        progress: Progress::Stopped,
        many: REFUSAL_BYTES,
    }
}

// 18, with the line's number as its place; it stops the program.
pub fn bad_frame(number: u32, out: &mut [u8]) -> Moved
    requires { 13 ≤ length out.old }
    ensures { (edges levels entries : List ℕ) → MovedBy (bad_frame number) result edges levels entries out.old out.new }
{
    stop(Refusal::Frame(number), out)
}

// 01 comes first and once; V over 32 is a bad frame.
pub fn on_sizes(p: Progress, sizes: Sizes, number: u32, out: &mut [u8]) -> Moved
    requires { 13 ≤ length out.old }
    ensures { (edges levels entries : List ℕ) → MovedBy (on_sizes (bad_frame number) sizes.items sizes.labels sizes.k (stage_by p edges levels entries)) result edges levels entries out.old out.new }
{
    match p {
        Progress::Opening if sizes.items <= MOST_ITEMS => Moved {
            progress: Progress::Gathering(Gathered { sizes, edges: 0 }),
            many: 0,
        },
        _ => bad_frame(number, out),
    }
}

// 02s come next, at most 1,024. Edges stand one behind the other, as the builder takes them.
pub fn on_edge(
    p: Progress,
    source: u32,
    target: u32,
    label: u32,
    number: u32,
    edges: &mut [u32],
    out: &mut [u8],
) -> Moved
    requires { (length edges.old ≡ 3072) × (13 ≤ length out.old) }
    ensures { (levels entries : List ℕ) → MovedBy (on_edge (bad_frame number) source target label (stage_by p edges.old levels entries)) result edges.new levels entries out.old out.new }
{
    match p {
        Progress::Gathering(g) if g.edges < MOST_EDGES => {
            let at = 3 * g.edges;
            edges[at..at + 3].copy_from_slice(&[source, target, label]);
            Moved {
                progress: Progress::Gathering(Gathered {
                    sizes: g.sizes,
                    edges: g.edges + 1,
                }),
                many: 0,
            }
        }
        _ => bad_frame(number, out),
    }
}

// Each turn answers how many bytes of text it left at the front of the output.
impl Run {
    // A refusal that stops the program.
    pub fn stop(&mut self, refusal: Refusal) -> usize
        ensures turn { Comes (stops refusal) result self.old self.new }
        ensures kept { SameLists self.old self.new × SameLine self.old self.new }
    {
        let moved = stop(refusal, &mut self.out);
        self.progress = moved.progress;
        moved.many
    }

    // 18, with the number of lines so far.
    pub fn bad_frame(&mut self) -> usize
        ensures turn { Comes (bad_frame self.old.lines) result self.old self.new }
        ensures kept { SameLists self.old self.new × SameLine self.old self.new }
    {
        let moved = bad_frame(self.lines, &mut self.out);
        self.progress = moved.progress;
        moved.many
    }

    // 01.
    pub fn on_sizes(&mut self, sizes: Sizes) -> usize
        ensures turn { Comes (on_sizes (bad_frame self.old.lines) sizes.items sizes.labels sizes.k (stage_of self.old)) result self.old self.new }
        ensures kept { SameLists self.old self.new × SameLine self.old self.new }
    {
        let moved = on_sizes(self.progress, sizes, self.lines, &mut self.out);
        self.progress = moved.progress;
        moved.many
    }

    // 02.
    pub fn on_edge(&mut self, source: u32, target: u32, label: u32) -> usize
        ensures turn { Comes (on_edge (bad_frame self.old.lines) source target label (stage_of self.old)) result self.old self.new }
        ensures kept { (self.new.levels ≡ self.old.levels) × (self.new.entries ≡ self.old.entries) × SameLine self.old self.new }
    {
        let moved = on_edge(
            self.progress,
            source,
            target,
            label,
            self.lines,
            &mut self.edges,
            &mut self.out,
        );
        self.progress = moved.progress;
        moved.many
    }
}
