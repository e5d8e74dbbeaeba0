// Writing plain text into a lent buffer: words, decimals, decimals with a sign. Each function writes at a
// place, returns the next, and changes no other byte.
#![tactic(auto)]

ghost use Rattle.std.specs.Prelude.{◌≡◌, [], ◌∷◌, ◌+◌, ◌≤◌, ◌<◌, length};
ghost use Rattle.writing.specs.Text.{decimal, signed, Wrote};

// One byte.
pub fn put(text: &mut [u8], at: usize, byte: u8) -> usize
    requires { at < length text.old }
    ensures { Wrote text.old text.new at (byte ∷ []) result }
{
    text[at] = byte;
    at + 1
}

// The bytes of a word.
pub fn put_word(text: &mut [u8], at: usize, word: &[u8]) -> usize
    requires { at + length word.now ≤ length text.old }
    ensures { Wrote text.old text.new at word.now result }
{
    for (k, byte) in word.iter().enumerate() {
        text[at + k] = *byte;
    }
    at + word.len()
}

// A number in decimal.
pub fn put_number(text: &mut [u8], at: usize, n: u64) -> usize
    requires { at + 20 ≤ length text.old }
    ensures { Wrote text.old text.new at (decimal n) result }
{
    if n < 10 {
        return put(text, at, b'0' + n as u8);
    }
    let next = put_number(text, at, n / 10);
    put(text, next, b'0' + (n % 10) as u8)
}

// A number in decimal, with a minus where it is negative.
pub fn put_signed(text: &mut [u8], at: usize, z: i64) -> usize
    requires { at + 21 ≤ length text.old }
    ensures { Wrote text.old text.new at (signed z) result }
{
    if z >= 0 {
        return put_number(text, at, arithmetic::magnitude(z));
    }
    let next = put(text, at, b'-');
    put_number(text, next, arithmetic::magnitude(z))
}
