// Texts compared, blanks, and numbers read from the bytes of a text. A number above every field's limit is read as one such number, so that digits without
// end do no harm: no count and no distance is ever taken modulo anything.
#![tactic(auto)]

ghost use Rattle.std.specs.Prelude.{◌≡◌, ◌+◌, ◌*◌, ◌≤◌, length, get_or, drop};
ghost use Rattle.std.proofs.Math.Seq.{slice};
ghost use Rattle.digits.specs.Digits.{run, same, is_blank, is_digit, digit_of, most, at_most, number_from};

// What a number is cut at.
const MOST: u64 = 1000000000000000;

// A byte of a text, 0 behind its end.
pub fn byte_at(text: &[u8], k: usize) -> u8
    ensures { result ≡ get_or text.now k 0 }
{
    if k < text.len() {
        return text[k];
    }
    0
}

// Whether two texts are the same.
pub fn same(a: &[u8], b: &[u8]) -> bool
    ensures { result ≡ same a.now b.now }
{
    a == b
}

// Whether a byte is a blank.
pub fn is_blank(byte: u8) -> bool
    ensures { result ≡ is_blank byte }
{
    if byte == 32 {
        return true;
    }
    byte == 9
}

// Where the blanks at a place end.
pub fn blanks_end(text: &[u8], at: usize) -> usize
    requires { at ≤ length text.now }
    ensures { (result ≡ at + run is_blank (drop at text.now)) × (result ≤ length text.now) }
{
    for end in at..text.len() {
        if !is_blank(text[end]) {
            return end;
        }
    }
    text.len()
}

// Whether a byte is a digit.
pub fn is_digit(byte: u8) -> bool
    ensures { result ≡ is_digit byte }
{
    if byte < 48 {
        return false;
    }
    byte <= 57
}

// What a digit counts; no other byte counts anything.
fn digit(byte: u8) -> u64
    ensures { result ≡ digit_of byte }
{
    if is_digit(byte) {
        return (byte - 48) as u64;
    }
    0
}

// A number with one digit more behind it, cut.
pub fn longer(number: u64, byte: u8) -> u64
    requires { number ≤ most }
    ensures { (result ≡ at_most (number * 10 + digit_of byte)) × (result ≤ most) }
{
    let next = number * 10 + digit(byte);
    if next <= MOST {
        return next;
    }
    MOST
}

// Where the digits that begin at a place end.
pub fn digits_end(text: &[u8], at: usize) -> usize
    requires { at ≤ length text.now }
    ensures { (result ≡ at + run is_digit (drop at text.now)) × (result ≤ length text.now) }
{
    for end in at..text.len() {
        if !is_digit(text[end]) {
            return end;
        }
    }
    text.len()
}

// The number that the digits from one place to another are, behind others that are `number`; cut.
pub fn number(text: &[u8], number: u64, from: usize, to: usize) -> u64
    requires { (from ≤ to) × (to ≤ length text.now) × (number ≤ most) }
    ensures { (result ≡ at_most (number_from number (slice from to text.now))) × (result ≤ most) }
{
    let mut all = number;
    for k in from..to {
        all = longer(all, text[k]);
    }
    all
}
