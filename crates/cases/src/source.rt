// A reader, as standard input, through a lent buffer: bytes, numbers and runs.
// What may be at fault is read in two ways: `expect` and its like answer a fault; `expect_or_note` and its like note it, and read on.
ghost use Rattle.std.specs.Prelude.{◌≡◌, true, false};
ghost use Rattle.cases.specs.Noting.{is_sound};

use crate::faults::Fault;
use std::io;
use std::io::Read;

// How far the buffer is read: its bytes from `at` up to but without `end` are unread. `sound` is false once a fault was noted: the input has
// left the text form.
#[derive(Clone, Copy)]
pub struct Source {
    pub at: usize,
    pub end: usize,
    pub sound: bool,
}

// A reader with its lent buffer.
#[derive(Drop)]
pub struct Input<'a, R: Read> {
    reader: &'a mut R,
    buffer: &'a mut [u8],
    source: Source,
}

// As many times the same number.
#[derive(Clone, Copy)]
pub struct Run {
    pub many: usize,
    pub value: u32,
}

impl<'a, R: Read> Input<'a, R> {
    pub fn new(reader: &'a mut R, buffer: &'a mut [u8]) -> Input<'a, R>
        ensures { is_sound result ≡ true }
    {
        Input {
            reader,
            buffer,
            source: Source {
                at: 0,
                end: 0,
                sound: true,
            },
        }
    }

    // Whether the input has kept to the text form, as far as faults were noted.
    pub fn is_sound(&self) -> bool
        ensures { result ≡ is_sound self.now }
    {
        self.source.sound
    }

    // The input has left the text form.
    pub fn note_fault(&mut self)
        ensures { is_sound self.new ≡ false }
    {
        self.source.sound = false;
    }

    // The next byte, which stays unread; none at the end of the input.
    pub fn peek(&mut self) -> io::Result<Option<u8>>
        ensures kept { is_sound self.new ≡ is_sound self.old }
    {
        if self.source.at >= self.source.end {
            self.source.end = self.reader.read(self.buffer)?;
            self.source.at = 0;
        }
        if self.source.at >= self.source.end {
            return Ok(None);
        }
        let at = self.source.at;
        Ok(self.buffer.get(at).copied())
    }

    // The byte that was seen is read.
    pub fn skip(&mut self)
        ensures kept { is_sound self.new ≡ is_sound self.old }
    {
        if self.source.at < self.source.end {
            self.source.at += 1;
        }
    }

    // Reads a byte if it is the next one, and says whether it was.
    fn take(&mut self, byte: u8) -> io::Result<bool>
        ensures kept { is_sound self.new ≡ is_sound self.old }
    {
        let found = self.peek()? == Some(byte);
        if found {
            self.skip();
        }
        Ok(found)
    }

    // Reads a digit, if the next byte is one.
    fn digit(&mut self) -> io::Result<Option<u32>>
        ensures kept { is_sound self.new ≡ is_sound self.old }
    {
        let Some(byte @ b'0'..=b'9') = self.peek()? else {
            return Ok(None);
        };
        self.skip();
        Ok(Some(u32::from(byte - b'0')))
    }
}

// A fault is answered, and not noted; nothing behind it is read.
impl<'a, R: Read> Input<'a, R> {
    // Reads a byte that has to be there.
    pub fn expect(&mut self, byte: u8) -> Result<(), Fault>
        ensures kept { is_sound self.new ≡ is_sound self.old }
    {
        if self.take(byte)? {
            Ok(())
        } else {
            Err(Fault::NoCase)
        }
    }

    // A number of 32 bits. Ten digits say every one, and an eleventh is one too many.
    fn number(&mut self) -> Result<u32, Fault>
        ensures kept { is_sound self.new ≡ is_sound self.old }
    {
        let mut value = self.digit()?.ok_or(Fault::NoCase)?;
        for _ in 1..11 {
            let Some(digit) = self.digit()? else {
                break;
            };
            value = with_digit(Some(value), digit).ok_or(Fault::NoCase)?;
        }
        Ok(value)
    }

    // A space and a number.
    pub fn next_number(&mut self) -> Result<u32, Fault>
        ensures kept { is_sound self.new ≡ is_sound self.old }
    {
        self.expect(b' ')?;
        self.number()
    }

    // A space and a word of a list: a number, or as many as a run has.
    pub fn next_run(&mut self) -> Result<Run, Fault>
        ensures kept { is_sound self.new ≡ is_sound self.old }
    {
        let first = self.next_number()?;
        if !self.take(b'*')? {
            return Ok(Run {
                many: 1,
                value: first,
            });
        }
        let value = self.number()?;
        Ok(Run {
            many: first as usize,
            value,
        })
    }
}

// What ends in `_or_note` notes a fault, and what follows is read all the same: what a reader takes from a stream is seen at its other end.
impl<'a, R: Read> Input<'a, R> {
    // Reads a byte that has to be there.
    pub fn expect_or_note(&mut self, byte: u8) -> io::Result<()>
        ensures stays { is_sound self.old ≡ false → is_sound self.new ≡ false }
    {
        if !self.take(byte)? {
            self.note_fault();
        }
        Ok(())
    }

    // Reads digits: their number, if there are any and it has 32 bits. Ten digits say every one, and an eleventh is one too many.
    fn digits(&mut self) -> io::Result<Option<u32>>
        ensures kept { is_sound self.new ≡ is_sound self.old }
    {
        let mut value = self.digit()?;
        if value.is_none() {
            return Ok(None);
        }
        for _ in 1..11 {
            let Some(digit) = self.digit()? else {
                break;
            };
            value = with_digit(value, digit);
        }
        Ok(value)
    }

    // A number, 0 where there is none.
    fn number_or_note(&mut self) -> io::Result<u32>
        ensures stays { is_sound self.old ≡ false → is_sound self.new ≡ false }
    {
        let Some(value) = self.digits()? else {
            self.note_fault();
            return Ok(0);
        };
        Ok(value)
    }

    // A space and a number.
    pub fn next_number_or_note(&mut self) -> io::Result<u32>
        ensures stays { is_sound self.old ≡ false → is_sound self.new ≡ false }
    {
        self.expect_or_note(b' ')?;
        self.number_or_note()
    }

    // A space and a word of a list: a number, or as many as a run has.
    pub fn next_run_or_note(&mut self) -> io::Result<Run>
        ensures stays { is_sound self.old ≡ false → is_sound self.new ≡ false }
    {
        let first = self.next_number_or_note()?;
        if !self.take(b'*')? {
            return Ok(Run {
                many: 1,
                value: first,
            });
        }
        let value = self.number_or_note()?;
        Ok(Run {
            many: first as usize,
            value,
        })
    }
}

// A number with one digit more, if it fits.
fn with_digit(value: Option<u32>, digit: u32) -> Option<u32> {
    value?.checked_mul(10)?.checked_add(digit)
}

#[cfg(test)]
mod tests {
    use super::*;

    #[test]
    fn a_byte_that_has_to_be_there(rt: HostRuntime) {
        let mut bytes: &[u8] = b"ab";
        let mut buffer = [0u8; 1];
        let mut input = Input::new(&mut bytes, &mut buffer);
        assert!(rt; matches!(input.expect(b'b'), Err(Fault::NoCase)));
        assert!(rt; matches!(input.expect(b'a'), Ok(())));
        assert!(rt; matches!(input.expect(b'b'), Ok(())));
        assert!(rt; matches!(input.peek(), Ok(None)));
        assert!(rt; input.is_sound());
    }

    // The last is too large by one.
    #[test]
    fn numbers(rt: HostRuntime) {
        let mut bytes: &[u8] = b" 12 x 4294967295 4294967296";
        let mut buffer = [0u8; 4];
        let mut input = Input::new(&mut bytes, &mut buffer);
        assert!(rt; matches!(input.next_number(), Ok(12)));
        assert!(rt; matches!(input.next_number(), Err(Fault::NoCase)));
        assert!(rt; matches!(input.peek(), Ok(Some(b'x'))));
        input.skip();
        assert!(rt; matches!(input.next_number(), Ok(4294967295)));
        assert!(rt; matches!(input.next_number(), Err(Fault::NoCase)));
        assert!(rt; input.is_sound());
    }

    #[test]
    fn runs(rt: HostRuntime) {
        let mut bytes: &[u8] = b" 3*7 4 5*";
        let mut buffer = [0u8; 4];
        let mut input = Input::new(&mut bytes, &mut buffer);
        assert!(rt; matches!(input.next_run(), Ok(Run { many: 3, value: 7 })));
        assert!(rt; matches!(input.next_run(), Ok(Run { many: 1, value: 4 })));
        assert!(rt; matches!(input.next_run(), Err(Fault::NoCase)));
        assert!(rt; input.is_sound());
    }

    // A fault that was noted stays so, and what is read by itself does not ask for it.
    #[test]
    fn a_fault_that_was_noted(rt: HostRuntime) {
        let mut bytes: &[u8] = b"x 5";
        let mut buffer = [0u8; 4];
        let mut input = Input::new(&mut bytes, &mut buffer);
        assert!(rt; matches!(input.expect_or_note(b'y'), Ok(())));
        assert!(rt; !input.is_sound());
        input.skip();
        assert!(rt; matches!(input.next_number(), Ok(5)));
        assert!(rt; !input.is_sound());
        input.note_fault();
        assert!(rt; !input.is_sound());
    }
}
