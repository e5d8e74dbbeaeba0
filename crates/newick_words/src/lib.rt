// The words of a tree in text: where a name ends, where a length ends, and its thousandths. Each is read where it stands, in one pass over
// its bytes.
#![tactic(auto)]

ghost use Rattle.std.specs.Prelude.{◌≡◌, true, ◌&&◌, ◌+◌, ◌-◌, ◌≤◌, eqb, ltb, length, get_or, drop};
ghost use Rattle.newick_text.specs.Length.{sign_size, length_there};
ghost use Rattle.newick_words.specs.Words.{name_width, length_width, edge_width, DigitsRead, LengthRead};

use records::Layout;

// The most bytes of a text, and the bytes of a buffer for one.
pub const MAX_TEXT: usize = 65_536;

// Lengths are thousandths.
pub const THOUSAND: u32 = 1000;

// Where the name at a place ends, that place where none stands there.
pub fn name_end(text: &[u8], at: usize) -> usize
    requires { at ≤ length text.now }
    ensures { (result ≡ at + name_width (drop at text.now)) × (result ≤ length text.now) }
{
    let end = names::name_end(text, at);
    if end - at > Layout::MAX_NAME {
        return at;
    }
    end
}

// How many bytes the minus at a place has: one, or none.
fn minus_size(text: &[u8], at: usize) -> usize
    requires { at ≤ length text.now }
    ensures { (result ≡ sign_size (drop at text.now)) × (at + result ≤ length text.now) }
{
    if digits::byte_at(text, at) == b'-' {
        return 1;
    }
    0
}

// Whether a zero begins digits and is not the only one.
fn needless_zero(text: &[u8], whole: usize, point: usize) -> bool
    requires { whole ≤ point }
    ensures { result ≡ (ltb 1 (point - whole) && eqb (get_or text.now whole 0) 48) }
{
    if point - whole <= 1 {
        return false;
    }
    digits::byte_at(text, whole) == b'0'
}

// Where the length at a place ends, with no digit behind it; that place where none stands there.
fn length_end(text: &[u8], at: usize) -> usize
    requires { at ≤ length text.now }
    ensures { (result ≡ at + length_width (drop at text.now)) × (result ≤ length text.now) }
{
    let whole = at + minus_size(text, at);
    let point = digits::digits_end(text, whole);
    if point == whole {
        return at;
    }
    if needless_zero(text, whole, point) {
        return at;
    }
    if digits::byte_at(text, point) != b'.' {
        return at;
    }
    let end = digits::digits_end(text, point + 1);
    if end != point + 4 {
        return at;
    }
    if whole == at {
        return end;
    }
    let number = digits::number(text, 0, whole, point);
    if digits::number(text, number, point + 1, point + 4) == 0 {
        return at;
    }
    end
}

// Where a colon and the length behind it end, that place where they do not stand there.
pub fn edge_end(text: &[u8], at: usize) -> usize
    requires { at ≤ length text.now }
    ensures { (result ≡ at + edge_width (drop at text.now)) × (result ≤ length text.now) }
{
    if digits::byte_at(text, at) != b':' {
        return at;
    }
    let end = length_end(text, at + 1);
    if end == at + 1 {
        return at;
    }
    end
}

// Digits that were read: where they end, and the number that they are, cut.
#[derive(Clone, Copy)]
struct Digits {
    end: usize,
    number: u64,
}

// The digits at a place.
fn digits_at(text: &[u8], at: usize) -> Digits
    requires { at ≤ length text.now }
    ensures { DigitsRead text.now at result }
{
    let mut number = 0;
    for end in at..text.len() {
        let byte = text[end];
        if !digits::is_digit(byte) {
            return Digits { end, number };
        }
        number = digits::longer(number, byte);
    }
    Digits {
        end: text.len(),
        number,
    }
}

// A length that was read: where it ends, and its thousandths, cut.
#[derive(Clone, Copy)]
pub struct Length {
    pub end: usize,
    pub thousandths: i64,
}

// The length that is known to stand at a place.
pub fn length_at(text: &[u8], at: usize) -> Length
    requires { (at ≤ length text.now) × (length_there (drop at text.now) ≡ true) }
    ensures { LengthRead text.now at result }
{
    let whole = at + minus_size(text, at);
    let digits = digits_at(text, whole);
    let point = digits.end;
    let end = point + 4;
    let all = digits::number(text, digits.number, point + 1, end) as i64;
    if whole == at {
        return Length {
            end,
            thousandths: all,
        };
    }
    Length {
        end,
        thousandths: 0 - all,
    }
}
