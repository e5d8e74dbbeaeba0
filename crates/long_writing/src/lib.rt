// Numbers in digits of base 1,000,000 written as decimals into a lent buffer: the first digit that is not zero, then six decimals a digit.
#![tactic(auto)]

ghost use Rattle.std.specs.Prelude.{◌≡◌, ℕ, ◌+◌, ◌-◌, ◌*◌, ◌≤◌, ◌<◌, length, get_or};
ghost use Rattle.long_digits.specs.Digits.{base, natural};
ghost use Rattle.writing.specs.Text.{Wrote};
ghost use Rattle.long_writing.specs.Decimals.{six, sixes, long_decimal, max_digits, FirstDigit};

// Six decimals, zeros in front where the number is short.
fn put_six(text: &mut [u8], at: usize, digit: u32) -> usize
    requires { (digit < base) × (at + 6 ≤ length text.old) }
    ensures { Wrote text.old text.new at (six digit) result }
{
    let decimals = [
        b'0' + (digit / 100_000) as u8,
        b'0' + (digit / 10_000 % 10) as u8,
        b'0' + (digit / 1000 % 10) as u8,
        b'0' + (digit / 100 % 10) as u8,
        b'0' + (digit / 10 % 10) as u8,
        b'0' + (digit % 10) as u8,
    ];
    writing::put_word(text, at, &decimals)
}

// Six decimals for each digit from one on.
fn put_sixes(text: &mut [u8], at: usize, from: usize, levels: usize, digits: &[u32]) -> usize
    requires from_le_levels { (from ≤ levels) × (levels ≤ length digits.now) × (at + 6 * (levels - from) ≤ length text.old) }
    requires by_index { (k : ℕ) → get_or digits.now k 0 < base }
    ensures { Wrote text.old text.new at (sixes from (levels - from) (λ k. get_or digits.now k 0)) result }
{
    let mut next = at;
    for k in from..levels {
        next = put_six(text, next, digits[k]);
    }
    next
}

// The first digit that is not zero; their count where all are.
fn first_digit(levels: usize, digits: &[u32]) -> usize
    requires { levels ≤ length digits.now }
    ensures { FirstDigit levels (λ k. get_or digits.now k 0) result }
{
    for k in 0..levels {
        if digits[k] != 0 {
            return k;
        }
    }
    levels
}

// The number that so many digits write, in decimals, without needless zeros.
pub fn put_digits(text: &mut [u8], at: usize, levels: usize, digits: &[u32]) -> usize
    requires levels_le_max_digits { (levels ≤ max_digits) × (levels ≤ length digits.now) × (at + 6 * levels + 20 ≤ length text.old) }
    requires by_index { (k : ℕ) → get_or digits.now k 0 < base }
    ensures { Wrote text.old text.new at (long_decimal (natural levels (λ k. get_or digits.now k 0))) result }
{
    let first = first_digit(levels, digits);
    if first >= levels {
        return writing::put(text, at, b'0');
    }
    let next = writing::put_number(text, at, digits[first] as u64);
    put_sixes(text, next, first + 1, levels, digits)
}
