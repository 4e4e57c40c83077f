// The steps of the machine: a byte, and the line that it ends. Each answers how many bytes of text stand at the front of the output.
ghost use Rattle.std.specs.Prelude.{◌≡◌};
ghost use Rattle.machine.specs.Machine.{end_line, byte};
ghost use Rattle.machine.specs.Standing.{machine_of, Steps};

use crate::turns;
use machine::Run;

// The line in hand ends: its turn is made under the next number, and the next line begins with nothing held.
pub fn end_line(run: &mut Run) -> usize
    ensures step { Steps (end_line (machine_of run.old)) result run.old run.new }
    ensures kept { run.new.part ≡ run.old.part }
{
    run.lines = run.lines.saturating_add(1);
    let many = turns::on_line(run);
    run.held = 0;
    many
}

// One byte; after a stop the rest is unread.
pub fn take_byte(run: &mut Run, b: u8) -> usize
    ensures { Steps (byte (machine_of run.old) b) result run.old run.new }
{
    if run.is_stopped() {
        return 0;
    }
    if b == b'\n' {
        return end_line(run);
    }
    run.keep_byte(b)
}
