// A reader of one frame: a struct that holds the line slice and a cursor, and thin functions over functions on a plain slice and
// numbers.

#![tactic(auto)]

ghost use Rattle.std.specs.Prelude.{◌≡◌, ◌+◌, ◌≤◌, ◌<◌, ◌^◌, eqb, length};
ghost use Rattle.hexa.specs.Digits.{number_at};

#[derive(Clone, Copy)]
pub struct Frame<'a> {
    pub line: &'a [u8],
    pub at: usize,
}

impl<'a> Frame<'a> {
    // The line at its start.
    pub fn new(line: &'a [u8]) -> Frame<'a>
        ensures { (result.line ≡ line.entry) × (result.at ≡ 0) }
    {
        Frame { line, at: 0 }
    }

    // The same line, n places further on.
    pub fn advanced(self, n: usize) -> Frame<'a>
        requires { self.at + n < 2 ^ 64 }
        ensures { (result.line ≡ self.entry.line) × (result.at ≡ self.entry.at + n) }
    {
        Frame {
            at: self.at + n,
            ..self
        }
    }

    // The number of d digits that stands at the place.
    pub fn digits(self, d: usize) -> Option<u32>
        requires { d ≤ 8 }
        ensures { result ≡ number_at self.entry.line.now self.entry.at d }
    {
        hexa::number_at(self.line, self.at, d)
    }

    // Whether the line ends at the place.
    pub fn ended(self) -> bool
        ensures { result ≡ eqb self.entry.at (length self.entry.line.now) }
    {
        hexa::ends_at(self.line, self.at)
    }
}

// The number of d digits at a place of a line. Whoever reads a frame calls this and `ends` with plain parameters.
pub fn field(line: &[u8], at: usize, d: usize) -> Option<u32>
    requires { d ≤ 8 }
    ensures { result ≡ number_at line.now at d }
{
    Frame::new(line).advanced(at).digits(d)
}

// Whether a line ends at a place.
pub fn ends(line: &[u8], at: usize) -> bool
    ensures { result ≡ eqb at (length line.now) }
{
    Frame::new(line).advanced(at).ended()
}
