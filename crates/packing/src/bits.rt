// One bit of a byte.
ghost use Rattle.std.specs.Prelude.{◌≡◌, ◌^◌, ◌<◌};
ghost use Rattle.rules.specs.Bits.{bit_at};

// Whether bit b of x is 1.
pub fn has_bit(x: u8, b: usize) -> bool
    requires { b < 8 }
    ensures { result ≡ bit_at b x }
{
    (x >> b) % 2 == 1
}

// The byte whose one bit is b.
pub fn one_bit(b: usize) -> u8
    requires { b < 8 }
    ensures { result ≡ 2 ^ b }
{
    1u8 << b
}
