// Numbers in a slice of bytes, the lowest byte first.
#![tactic(auto)]

ghost use Rattle.std.specs.Prelude.{◌≡◌, ◌+◌, ◌<◌, ◌≤◌, length};
ghost use Rattle.endian.specs.Bytes.{number, twos_of, twos};

// The number of two, four, eight bytes from `at` on.
pub fn u16_at(s: &[u8], at: usize) -> u16
    requires { at + 2 ≤ length s.now }
    ensures { result ≡ number 2 s.now at }
{
    u16::from(s[at]) + u16::from(s[at + 1]) * 256
}

pub fn u32_at(s: &[u8], at: usize) -> u32
    requires { at + 4 ≤ length s.now }
    ensures { result ≡ number 4 s.now at }
{
    u32::from(u16_at(s, at)) + u32::from(u16_at(s, at + 2)) * 65536
}

pub fn u64_at(s: &[u8], at: usize) -> u64
    requires { at + 8 ≤ length s.now }
    ensures { result ≡ number 8 s.now at }
{
    u64::from(u32_at(s, at)) + u64::from(u32_at(s, at + 4)) * 4294967296
}

// The number whose two's complement is x.
pub fn signed(x: u64) -> i64
    ensures { result ≡ twos x }
{
    if x < 9223372036854775808 {
        x as i64
    } else {
        -1 - ((u64::MAX - x) as i64)
    }
}

// The number below or above zero of the eight bytes from `at` on.
pub fn i64_at(s: &[u8], at: usize) -> i64
    requires { at + 8 ≤ length s.now }
    ensures { result ≡ twos (number 8 s.now at) }
{
    signed(u64_at(s, at))
}

// The number below or above zero of the four bytes from `at` on.
pub fn i32_at(s: &[u8], at: usize) -> i64
    requires { at + 4 ≤ length s.now }
    ensures { result ≡ twos_of 32 (number 4 s.now at) }
{
    let x = u32_at(s, at);
    if x < 2147483648 {
        x as i64
    } else {
        -1 - ((u32::MAX - x) as i64)
    }
}
