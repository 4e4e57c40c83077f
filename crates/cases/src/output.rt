// A writer, as standard output, through a lent buffer, of which the bytes below `used` are not yet written.
ghost use Rattle.std.specs.Prelude.{◌≤◌, length};

use std::io::{Result, Write};

#[derive(Drop)]
pub struct Output<'a, W: Write> {
    writer: &'a mut W,
    buffer: &'a mut [u8],
    used: usize,
    ghost within: { used ≤ length buffer.now },
}

impl<'a, W: Write> Output<'a, W> {
    pub fn new(writer: &'a mut W, buffer: &'a mut [u8]) -> Output<'a, W> {
        Output {
            writer,
            buffer,
            used: 0,
        }
    }
}

impl<'a, W: Write> Write for Output<'a, W> {
    // Where the buffer is full, it is written first.
    fn write(&mut self, bytes: &[u8]) -> Result<usize> {
        if self.used == self.buffer.len() {
            self.flush()?;
        }
        let room = &mut self.buffer[self.used..];
        let many = room.len().min(bytes.len());
        room[..many].copy_from_slice(&bytes[..many]);
        self.used += many;
        Ok(many)
    }

    fn flush(&mut self) -> Result<()> {
        self.writer.write_all(&self.buffer[..self.used])?;
        self.used = 0;
        Ok(())
    }
}
