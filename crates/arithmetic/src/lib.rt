// Whole numbers, exactly: the arithmetic that the rooms above need and that a machine word does not
// give by itself. It knows no tree and no matrix.
#![tactic(auto)]

ghost use Rattle.std.specs.Prelude.{◌≡◌, ◌≤◌, pos, ◌+ℤ◌, unsigned_abs};
ghost use Rattle.exact.specs.Nearest.{nearest, nearest_even};
ghost use Rattle.exact.specs.Modulo.{Modulo};
ghost use Rattle.exact.specs.Fraction.{Greatest, Lowest, ◌over◌};

// How far t is from 0.
pub fn magnitude(t: i64) -> u64
    ensures { result ≡ unsigned_abs t }
{
    t.unsigned_abs()
}

// The accumulator acc with the signed term t added, modulo 2^64.
pub fn accumulate(acc: u64, t: i64) -> u64
    ensures { Modulo result (pos acc +ℤ t) }
{
    if 0 <= t {
        std::num::wrapping_add_u64(acc, magnitude(t))
    } else {
        std::num::wrapping_sub_u64(acc, magnitude(t))
    }
}

// The whole number nearest a/d, a tie going to the even neighbour: an odd quotient counts one more, so at a tie it goes
// up, and an even one stays.
fn nearest_even(a: u64, d: u32) -> u64
    requires { (a ≤ 10000000000000000) × (1 ≤ d) }
    ensures { result ≡ nearest_even d a }
{
    let whole = d as u64;
    let quotient = a / whole;
    let rest = a % whole;
    if 2 * rest + quotient % 2 > whole {
        quotient + 1
    } else {
        quotient
    }
}

// The length n/d in thousandths: the whole number nearest 1000·n/d, a tie going to the even neighbour.
pub fn thousandths(n: i64, d: u32) -> i64
    requires { (unsigned_abs n ≤ 10000000000000) × (1 ≤ d) }
    ensures { result ≡ nearest d n }
{
    let rounded = nearest_even(1000 * magnitude(n), d) as i64;
    if n >= 0 { rounded } else { 0 - rounded }
}

// A length: a numerator over a denominator.
#[derive(Clone, Copy)]
pub struct Ratio {
    pub top: i64,
    pub bottom: u64,
}

// The greatest number that goes into both a and b.
fn common(a: u64, b: u64) -> u64
    requires { 1 ≤ b }
    ensures { Greatest a b result }
{
    let mut x = a;
    let mut y = b;
    // Euclid's steps; no index is counted.
    while y != 0 {
        let left = x % y;
        x = y;
        y = left;
    }
    x
}

// The fraction in lowest terms.
pub fn lowest(top: i64, bottom: u64) -> Ratio
    requires { (1 ≤ bottom) × (unsigned_abs top ≤ 1000000000000000000) }
    ensures { Lowest (top over pos bottom) result.top result.bottom }
{
    let size = magnitude(top);
    let shared = common(size, bottom);
    let reduced = (size / shared) as i64;
    let below = bottom / shared;
    if top >= 0 {
        return Ratio {
            top: reduced,
            bottom: below,
        };
    }
    Ratio {
        top: 0 - reduced,
        bottom: below,
    }
}
