// Upper-case hexadecimal: the value of a digit, a number read at a place of a line, and a number written at a place of an output.

#![tactic(auto)]

ghost use Rattle.std.specs.Prelude.{◌≡◌, ◌+◌, ◌%◌, ◌≤◌, eqb, length, slice_get};
ghost use Rattle.std.proofs.lemmas.List.Edits.{sets};
ghost use Rattle.hexa.specs.Digits.{value_of, digit_of, number_at, spelling};

// The value of one digit, 0 to 9 and A to F.
#[tactic(auto, unfolding(crate::specs::Digits::value_of))]
pub fn digit_value(b: u8) -> Option<u32>
    ensures { result ≡ value_of b }
{
    match b {
        b'0'..=b'9' => Some(u32::from(b - b'0')),
        b'A'..=b'F' => Some(u32::from(b - b'A') + 10),
        _ => None,
    }
}

// The byte i places past `at`, or none past the end. No sum of places can wrap, wherever `at` is.
pub fn byte_at(s: &[u8], at: usize, i: usize) -> Option<u8>
    ensures { result ≡ slice_get s.now (at + i) }
{
    s.get(at..)?.get(i).copied()
}

// The number of d digits that stands at a place of s, wherever that place is. Eight digits are what 32 bits hold.
pub fn number_at(s: &[u8], at: usize, d: usize) -> Option<u32>
    requires { d ≤ 8 }
    ensures { result ≡ number_at s.now at d }
{
    let mut x = 0;
    for i in 0..d {
        x = x * 16 + digit_value(byte_at(s, at, i)?)?;
    }
    Some(x)
}

// Whether s ends at a place.
pub fn ends_at(s: &[u8], at: usize) -> bool
    ensures { result ≡ eqb at (length s.now) }
{
    at == s.len()
}

// The last digit of a number.
#[tactic(auto, unfolding(crate::specs::Digits::digit_of))]
pub fn last_digit(x: u32) -> u8
    ensures { result ≡ digit_of (x % 16) }
{
    let v = (x % 16) as u8;
    if v < 10 { b'0' + v } else { b'A' + (v - 10) }
}

// Writes the last d digits of x at a place of out, from the last one to the first, and leaves the rest of out as it was.
pub fn put_digits(out: &mut [u8], at: usize, d: usize, x: u32)
    requires { at + d ≤ length out.old }
    ensures { out.new ≡ sets out.old at (spelling d x) }
{
    let mut left = x;
    for i in (0..d).rev() {
        out[at + i] = last_digit(left);
        left /= 16;
    }
}
