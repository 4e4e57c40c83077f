// The end of the input: the last line, and what is printed behind it. Each answers how many bytes of text stand at the front of the output.
ghost use Rattle.std.specs.Prelude.{◌≡◌};
ghost use Rattle.machine.specs.Machine.{last_line, ended, finish};
ghost use Rattle.machine.specs.Standing.{stage_of, machine_of, Steps, SameLine};
ghost use Rattle.lines.specs.Lent.{Written};

use crate::{steps, turns};
use machine::{Progress, Run};

// The last line may lack its end; a final line end opens no line.
fn last_line(run: &mut Run) -> usize
    ensures step { Steps (last_line (machine_of run.old)) result run.old run.new }
    ensures kept { run.new.part ≡ run.old.part }
{
    if run.is_stopped() || run.held == 0 {
        return 0;
    }
    steps::end_line(run)
}

// At the end of input the tables are built if no query asked for them; an input with no line at all is a bad frame.
fn end_input(run: &mut Run) -> usize
    ensures written { Written (ended (machine_of run.old) (stage_of run.old)) result 0 run.old.out run.new.out }
    ensures kept { (run.new.edges ≡ run.old.edges) × SameLine run.old run.new }
{
    match run.progress {
        Progress::Opening => {
            run.lines = run.lines.saturating_add(1);
            run.bad_frame()
        }
        Progress::Gathering(gathered) => turns::build_tables(run, gathered),
        _ => 0,
    }
}

// The last line, and what is printed at the end: at most one of the two is a text, so that both can stand at the front of the output.
pub fn finish(run: &mut Run) -> usize
    ensures written { Written (finish (machine_of run.old)) result 0 run.old.out run.new.out }
    ensures kept { run.new.part ≡ run.old.part }
{
    let many = last_line(run);
    many + end_input(run)
}
