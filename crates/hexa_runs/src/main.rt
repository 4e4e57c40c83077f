// Numbers of four digits, one behind the other, are written back in eight, a line each; then whether the line ended behind the
// last. It does so with standard input, where a lower-case number ends it, and with a line that is numbers to its end. What it writes is compared with a stored output, so that the compiled code is run and not only proved.

#![tactic(auto)]

ghost use Rattle.std.specs.Prelude.{◌≤◌, length, IfOk};

use std::io;
use std::io::{Result, Write};

fn write_number(writer: &mut impl Write, x: u32) -> Result<()> {
    let mut out = *b"00000000\n";
    hexa::put_digits(&mut out, 0, 8, x);
    writer.write_all(&out)
}

fn write_end(writer: &mut impl Write, ended: bool) -> Result<()> {
    if ended {
        writer.write_all(b"ended\n")
    } else {
        writer.write_all(b"no number\n")
    }
}

// The numbers of a line that is at most 4,096 bytes long.
fn echo(writer: &mut impl Write, line: &[u8]) -> Result<()> {
    for at in (0..4096).step_by(4) {
        let Some(x) = reader::field(line, at, 4) else {
            return write_end(writer, reader::ends(line, at));
        };
        write_number(writer, x)?;
    }
    Ok(())
}

// Reads until the buffer is full or the input ends: how many bytes stand at its front. A `while`: a read may be short, and each turn goes on by what it gave.
fn read_full(from: &mut impl io::Read, buffer: &mut [u8]) -> Result<usize>
    ensures { IfOk result (λ n. n ≤ length buffer.new) }
{
    let mut n = 0;
    while n < buffer.len() {
        let got = from.read(&mut buffer[n..])?;
        if got == 0 {
            break;
        }
        n += got;
    }
    Ok(n)
}

fn main(rt: HostRuntime) -> Result<()> {
    let mut buffer = [0u8; 4096];
    let n = read_full(&mut rt.stdin(), &mut buffer)?;
    let mut stdout = rt.stdout();
    echo(&mut stdout, &buffer[..n])?;
    echo(&mut stdout, b"0100FFFF")
}
