// Reads the input, hands it to `lines`, and writes what `lines` leaves at the front of the output. The contracts speak of the bytes that the
// reads handed over and, where those of a reader and a writer are known, of the whole input and the whole output. At most one line, and the
// tables, are held.

#![tactic(auto)]

ghost use Rattle.std.specs.Prelude.{◌≡◌, ◌-◌, ◌^◌, ◌<◌, ◌≤◌, length, take, IfOk, OnOk, IfSome};
ghost use Rattle.std.specs.Io.KnownBytes.{Appends, Consumes, IsAtEnd};
ghost use Rattle.machine.specs.Machine.{feed, run};
ghost use Rattle.machine.specs.Standing.{stage_of, machine_of};
ghost use Rattle.answer.specs.Reads.{goes_on, Reads};
ghost use Rattle.answer.specs.Streams.{Moves, Runs};

use lines::{feeding, steps};
use machine::Run;
use std::io::{Read, Result, Write};

// What came in one read: each text is written before the next byte is taken. An error here and below is the reader's or the writer's.
fn print_all<W: Write>(writer: &mut W, run: &mut Run, input: &[u8]) -> Result<()>
    ensures machine { OnOk result (machine_of run.new ≡ (feed (machine_of run.old) input.now).machine) }
    ensures written { OnOk result (Appends (W.contents writer.old) (W.contents writer.new) (feed (machine_of run.old) input.now).text) }
{
    for byte in input {
        let many = steps::take_byte(run, *byte);
        if many > 0 {
            writer.write_all(&run.out[..many])?;
        }
    }
    Ok(())
}

// One read, and what is printed for it: how many bytes it handed over.
fn read_once<R: Read, W: Write>(
    reader: &mut R,
    writer: &mut W,
    run: &mut Run,
    buffer: &mut [u8],
) -> Result<usize>
    ensures machine { IfOk result (λ got. Reads (machine_of run.old) (machine_of run.new) got buffer.new) }
    ensures read { IfOk result (λ got. Consumes (R.remaining reader.old) (R.remaining reader.new) (take got buffer.new)) }
    ensures end { IfOk result (λ got. got ≡ 0 → 0 < length buffer.new → IsAtEnd (R.remaining reader.new)) }
    ensures written { IfOk result (λ got. Appends (W.contents writer.old) (W.contents writer.new) (feed (machine_of run.old) (take got buffer.new)).text) }
{
    let got = reader.read(buffer)?;
    print_all(writer, run, &buffer[..got])?;
    Ok(got)
}

// Nothing more is read at the end of the input, or once the run has stopped.
fn goes_on(run: &Run, got: usize) -> bool
    ensures { result ≡ goes_on got (stage_of run.now) }
{
    got > 0 && !run.is_stopped()
}

// Reads until there is no more to read. A proved loop has to end, and nothing says that the input does: the reads are counted, up to a number that
// no run comes to.
fn read_all<R: Read, W: Write>(reader: &mut R, writer: &mut W, run: &mut Run) -> Result<()>
    ensures { OnOk result (Moves (R.remaining reader.old) (R.remaining reader.new) (W.contents writer.old) (W.contents writer.new) (machine_of run.old) (machine_of run.new)) }
{
    let mut buffer = [0; 4096];
    'reads: for _ in 0..u64::MAX {
        let got = read_once(reader, writer, run, &mut buffer)?;
        if !goes_on(run, got) {
            break;
        }
    }
    Ok(())
}

// The run up to its last text: how many bytes of it stand at the front of the output.
fn run<R: Read, W: Write>(reader: &mut R, writer: &mut W, run: &mut Run) -> Result<usize>
    ensures inside { IfOk result (λ many. many ≤ length run.new.out) }
    ensures moved { IfOk result (λ many. Runs (R.remaining reader.old) (R.remaining reader.new) (W.contents writer.old) (W.contents writer.new) (machine_of run.old) (take many run.new.out)) }
{
    read_all(reader, writer, run)?;
    Ok(feeding::finish(run))
}

// The whole run.
fn answer_input<R: Read, W: Write>(reader: &mut R, writer: &mut W) -> Result<()>
    ensures { OnOk result (IfSome (R.remaining reader.old) (λ input. length input < 2 ^ 64 - 1 → Appends (W.contents writer.old) (W.contents writer.new) (run input))) }
{
    let mut state = Run::start();
    let many = run(reader, writer, &mut state)?;
    writer.write_all(&state.out[..many])
}

fn main(rt: HostRuntime) -> Result<()> {
    answer_input(&mut rt.stdin(), &mut rt.stdout())
}

#[cfg(test)]
mod tests {
    use super::*;
    use std::io::{Error, ErrorKind};

    // Hands over nothing.
    #[derive(Drop)]
    struct Broken;

    impl Read for Broken {
        fn read(&mut self, _buf: &mut [u8]) -> Result<usize> {
            Err(Error::from(ErrorKind::Other))
        }
    }

    // The first lines of crates/answer/stdin, the last in hand, and of its stdout.
    const INPUT: &[u8] =
        b"0100040202\n020000000200\n020001000200\n020003000201\n03010220\n030102200021";

    const FIRST: &[u8] = b"81000A0010000E\n8300040000000100040005\n";

    const WHOLE: &[u8] = b"81000A0010000E\n8300040000000100040005\n83000200000005\n";

    #[test]
    fn the_whole_run(rt: HostRuntime) -> Result<()> {
        let mut input = INPUT;
        let mut out = Vec::new(rt.alloc());
        answer_input(&mut input, &mut out)?;
        assert_eq!(rt; out.as_slice(), WHOLE);
        Ok(())
    }

    // What was printed before stays, and nothing is printed for the line in hand.
    #[test]
    fn a_read_that_fails(rt: HostRuntime) -> Result<()> {
        let mut input = INPUT.chain(Broken);
        let mut out = Vec::new(rt.alloc());
        let result = answer_input(&mut input, &mut out);
        assert!(rt; result.is_err());
        assert_eq!(rt; out.as_slice(), FIRST);
        Ok(())
    }

    #[test]
    fn a_write_that_fails(rt: HostRuntime) -> Result<()> {
        let mut input = INPUT;
        let mut room = [0u8; 20];
        let mut out = &mut room[..];
        let result = answer_input(&mut input, &mut out);
        assert!(rt; result.is_err());
        Ok(())
    }
}
