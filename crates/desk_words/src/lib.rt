// The words of a line, read from a place on: one word, one number, and runs of numbers into lent tables.
#![tactic(auto)]

ghost use Rattle.std.specs.Prelude.{◌≡◌, ◌+◌, ◌≤◌, ◌<◌, ℤ, pos, length, drop};
ghost use Rattle.digits.specs.Digits.{run};
ghost use Rattle.desk_text.specs.Words.{is_letter, word_over, words, is_number, value_of, is_signed, signed_of};
ghost use Rattle.desk_text.specs.Fields.{cut_to, cut_magnitude, cut_numerator};
ghost use Rattle.desk_words.specs.Reads.{DigitsRead, WordRead, NumberRead, with_sign, signed, SignedRead, TakenIn};

use lengths::Lengths;

// Whether no word goes on at a place: the line ends there, or a blank stands there.
fn word_over(line: &[u8], at: usize) -> bool
    ensures { result ≡ word_over (drop at line.now) }
{
    if at < line.len() {
        return digits::is_blank(line[at]);
    }
    true
}

// Where the letters at a place end.
fn letters_end(line: &[u8], at: usize) -> usize
    requires { at ≤ length line.now }
    ensures { (result ≡ at + run is_letter (drop at line.now)) × (result ≤ length line.now) }
{
    for end in at..line.len() {
        if digits::is_blank(line[end]) {
            return end;
        }
    }
    line.len()
}

// Where a word begins and ends.
#[derive(Clone, Copy)]
pub struct Word {
    pub start: usize,
    pub end: usize,
}

// The first word from a place on; an empty one at the line's end where there is none.
pub fn word_at(line: &[u8], at: usize) -> Word
    requires { at ≤ length line.now }
    ensures { WordRead line.now at result }
{
    let start = digits::blanks_end(line, at);
    Word {
        start,
        end: letters_end(line, start),
    }
}

// A number that was read, and where its word ends.
#[derive(Clone, Copy)]
pub struct Parsed<T> {
    pub value: T,
    pub end: usize,
}

// The letters at a place as a number.
fn digits_at(line: &[u8], at: usize) -> Option<Parsed<u64>>
    requires { at ≤ length line.now }
    ensures { DigitsRead line.now at result }
{
    let end = digits::digits_end(line, at);
    if end == at {
        return None;
    }
    if !word_over(line, end) {
        return None;
    }
    Some(Parsed {
        value: digits::number(line, 0, at, end),
        end,
    })
}

// The first word from a place on as a number; where it is none, where it begins.
pub fn number_at(line: &[u8], at: usize) -> Result<Parsed<u64>, usize>
    requires { at ≤ length line.now }
    ensures { NumberRead line.now at result }
{
    let start = digits::blanks_end(line, at);
    digits_at(line, start).ok_or(start)
}

// A number that is at most `most`, and `above` for one that is not.
pub fn field(number: u64, most: u64, above: u64) -> u64
    ensures { result ≡ cut_to most above number }
{
    if number <= most {
        return number;
    }
    above
}

// A magnitude, cut, with its sign.
fn numerator(minus: bool, magnitude: u64) -> i64
    ensures { result ≡ with_sign minus (cut_magnitude magnitude) }
{
    let cut = field(
        magnitude,
        Lengths::MAX_NUMERATOR,
        Lengths::MAX_NUMERATOR + 1,
    ) as i64;
    if minus {
        return -cut;
    }
    cut
}

// A number with its sign.
fn signed(minus: bool, read: Option<Parsed<u64>>) -> Option<Parsed<i64>>
    ensures { result ≡ signed minus read }
{
    let number = read?;
    Some(Parsed {
        value: numerator(minus, number.value),
        end: number.end,
    })
}

// The first word from a place on as a number that may have a minus; where it is none, where it begins.
pub fn signed_at(line: &[u8], at: usize) -> Result<Parsed<i64>, usize>
    requires { at ≤ length line.now }
    ensures { SignedRead line.now at result }
{
    let start = digits::blanks_end(line, at);
    if digits::byte_at(line, start) == b'-' {
        return signed(true, digits_at(line, start + 1)).ok_or(start);
    }
    signed(false, digits_at(line, start)).ok_or(start)
}

// What was taken: how many words, and where they end.
#[derive(Clone, Copy)]
pub struct Taken {
    pub count: usize,
    pub end: usize,
}

// The numbers from a place on, up to the first word that is none, into a table, each cut.
pub fn numbers(line: &[u8], at: usize, most: u16, above: u16, into: &mut [u16]) -> Taken
    requires { (at ≤ length line.now) × (length (words (drop at line.now)) ≤ length into.old) }
    ensures { TakenIn is_number (λ w. cut_to most above (value_of w)) line.now at into.old into.new result }
{
    let mut count = 0;
    let mut end = at;
    while let Ok(next) = number_at(line, end) {
        into[count] = field(next.value, most as u64, above as u64) as u16;
        count += 1;
        end = next.end;
    }
    Taken { count, end }
}

// The numerators from a place on, up to the first word that is none, into a table, each cut.
pub fn numerators(line: &[u8], at: usize, into: &mut [i64]) -> Taken
    requires { (at ≤ length line.now) × (length (words (drop at line.now)) ≤ length into.old) }
    ensures { TakenIn is_signed (λ w. cut_numerator (signed_of w)) line.now at into.old into.new result }
{
    let mut count = 0;
    let mut end = at;
    while let Ok(next) = signed_at(line, end) {
        into[count] = next.value;
        count += 1;
        end = next.end;
    }
    Taken { count, end }
}
