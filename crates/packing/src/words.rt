// Numbers of two bytes, the low byte first.
ghost use Rattle.std.specs.Prelude.{◌≡◌, ◌+◌, ◌<◌, length};
ghost use Rattle.packing.specs.Words.{word, set_word};

// The number at a place.
pub fn word_at(list: &[u8], at: usize) -> usize
    requires { at + 1 < length list.now }
    ensures number { result ≡ word list.now at }
    ensures small { result < 65536 }
{
    usize::from(u16::from_le_bytes([list[at], list[at + 1]]))
}

// The number at a place becomes x.
pub fn set_word(list: &mut [u8], at: usize, x: usize)
    requires room { at + 1 < length list.old }
    requires small { x < 65536 }
    ensures { list.new ≡ set_word list.old at x }
{
    list[at] = (x % 256) as u8;
    list[at + 1] = (x / 256) as u8;
}
