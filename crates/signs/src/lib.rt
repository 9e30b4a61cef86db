// Signed numbers in two's complement: read from a slice of bytes, as the numbers of 2 and 4 bytes that stand for them, and back.
#![tactic(auto)]

ghost use Rattle.std.specs.Prelude.{◌≡◌, true};
ghost use Rattle.signs.specs.TwosComplement.{signed, unsigned, holds, signed_at};

// The value of a number of 4 bytes.
pub fn signed32(n: u32) -> i32
    ensures { result ≡ signed 4 n }
{
    if n < 0x8000_0000 {
        return n as i32;
    }
    (n as i64 - 0x1_0000_0000) as i32
}

// The value of 4 bytes at index at; a byte past the end counts 0.
pub fn read_i32(s: &[u8], at: usize) -> i32
    ensures { result ≡ signed_at 4 s.now at }
{
    signed32(wire::read_u32(s, at))
}

// The number of 4 bytes that stands for the value of a number of 2: sign-extended.
fn extended(n: u16) -> u32
    ensures { result ≡ unsigned 4 (signed 2 n) }
{
    if n < 0x8000 {
        return n as u32;
    }
    n as u32 + 0xFFFF_0000
}

// The value of 2 bytes at index at, sign-extended to 4.
pub fn read_word(s: &[u8], at: usize) -> u32
    ensures { result ≡ unsigned 4 (signed_at 2 s.now at) }
{
    extended(wire::read_u16(s, at))
}

// The number of 4 bytes that stands for a value of 2.
pub fn word(z: i16) -> u32
    ensures { result ≡ unsigned 4 z }
{
    if z < 0 {
        return (z as i64 + 0x1_0000_0000) as u32;
    }
    z as u32
}

// Whether 2 bytes have a number for the value of a number of 4 bytes.
pub fn is_short(n: u32) -> bool
    ensures { result ≡ holds 2 (signed 4 n) }
{
    (n < 0x8000) | (n >= 0xFFFF_8000)
}

// The value of a number of 4 bytes, where 2 bytes have a number for it.
pub fn from_word(n: u32) -> i16
    requires { holds 2 (signed 4 n) ≡ true }
    ensures { result ≡ signed 4 n }
{
    if n < 0x8000_0000 {
        return n as i16;
    }
    (n as i64 - 0x1_0000_0000) as i16
}

// The number of 2 bytes that stands for the same value as a number of 4.
pub fn low_half(n: u32) -> u16
    requires { holds 2 (signed 4 n) ≡ true }
    ensures { result ≡ unsigned 2 (signed 4 n) }
{
    (n % 0x1_0000) as u16
}
