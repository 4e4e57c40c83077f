// The turns of the run that need the tables: they are built, and queries are answered; and the turn of any line. Each answers how many bytes of
// text stand at the front of the output.
ghost use Rattle.std.specs.Prelude.{◌≡◌, ◌≤◌, ◌*◌, take};
ghost use Rattle.format.specs.Frames.{tokens_of};
ghost use Rattle.machine.specs.Machine.{Turn, builds, asked, bad_frame, on_query, on_line};
ghost use Rattle.machine.specs.declared.Run.{Run};
ghost use Rattle.machine.specs.Standing.{stage_of, line_of, Comes, SameLists, SameLine};
ghost use Rattle.lines.specs.Lent.{call_of, Made};

use crate::asking;
use format::{Frame, frames, texts};
use machine::{Gathered, Progress, Run, Sizes, Tables};
use rules::{Counts, Refusal};

// The bytes of the 81 line.
const BUILT_BYTES: usize = 15;

// The tables, in the program's room. Starts, order and the working area do not outlive the call: queries read only levels and entries.
fn make_tables(run: &mut Run, gathered: Gathered) -> Result<Counts, Refusal>
    ensures made { Made (call_of gathered.sizes (take (3 * gathered.edges) run.old.edges) run.old.levels run.old.entries) result run.old run.new }
    ensures kept { (run.new.progress ≡ run.old.progress) × (run.new.edges ≡ run.old.edges) × SameLine run.old run.new }
{
    let mut starts = [0; 1025];
    let mut order = [0; 1024];
    let mut area = [0; 9216];
    index::build(
        gathered.sizes.items,
        gathered.sizes.labels,
        gathered.sizes.k,
        &run.edges[..3 * gathered.edges],
        &mut run.levels,
        &mut starts,
        &mut order,
        &mut run.entries,
        &mut area,
    )
}

// The tables are built, and the 81 line is printed; or the refusal, 1 to 6, which stops the program.
pub fn build_tables(run: &mut Run, gathered: Gathered) -> usize
    ensures turn { Comes (builds gathered.sizes.items gathered.sizes.labels gathered.sizes.k (take (3 * gathered.edges) run.old.edges)) result run.old run.new × (result ≤ 15) }
    ensures kept { (run.new.edges ≡ run.old.edges) × SameLine run.old run.new }
{
    match make_tables(run, gathered) {
        Ok(counts) => {
            texts::put_built(&mut run.out, counts);
            run.progress = Progress::Answering(Tables {
                sizes: gathered.sizes,
                entries: 2 * (counts.entries as usize),
            });
            BUILT_BYTES
        }
        Err(refusal) => run.stop(refusal),
    }
}

// The answer to a query behind what is printed already, if the tables are there.
fn then_ask(run: &mut Run, at: usize) -> usize
    requires { at ≤ 15 }
    ensures turn { (turn : Turn) (old : Run) → Comes turn at old run.old → Comes (asked turn (tokens_of (line_of run.old))) result old run.new }
    ensures kept { SameLists run.old run.new × SameLine run.old run.new }
{
    match run.progress {
        Progress::Answering(tables) => at + asking::ask_run(run, tables, at),
        _ => at,
    }
}

// 03s come last: the tables are built before the first.
fn on_query(run: &mut Run) -> usize
    ensures turn { Comes (on_query (bad_frame run.old.lines) (tokens_of (line_of run.old)) (stage_of run.old)) result run.old run.new }
    ensures kept { (run.new.edges ≡ run.old.edges) × SameLine run.old run.new }
{
    match run.progress {
        Progress::Gathering(gathered) => {
            let many = build_tables(run, gathered);
            then_ask(run, many)
        }
        Progress::Answering(_) => then_ask(run, 0),
        _ => run.bad_frame(),
    }
}

// What a line says decides its turn; one that says nothing is a bad frame at any stage.
pub fn on_line(run: &mut Run) -> usize
    ensures turn { Comes (on_line (stage_of run.old) run.old.lines (line_of run.old)) result run.old run.new }
    ensures kept { SameLine run.old run.new }
{
    match frames::frame(&run.part[..run.held]) {
        Frame::Sizes { items, labels, k } => run.on_sizes(Sizes { items, labels, k }),
        Frame::Edge {
            source,
            target,
            label,
        } => run.on_edge(source, target, label),
        Frame::Query => on_query(run),
        Frame::Faulty => run.bad_frame(),
    }
}
