// Lengths in digits by themselves: their counts, their digits and signs, and how far a length is from 0. A length is compared with multiples of
// half a thousandth, digit by digit.
#![tactic(auto)]

ghost use Rattle.std.specs.Prelude.{◌≡◌, not, ℕ, ◌*◌, ◌≤◌, ◌<◌, eqb, ltb, pos, nat_abs, length, get_or};
ghost use Rattle.std.specs.Int.Signed.{lt_z};
ghost use Rattle.long_digits.specs.Digits.{base};
ghost use Rattle.long_digits.specs.Clamp.{clamp, most};
ghost use Rattle.verdict.specs.Answer.{answer_of};
ghost use Rattle.verdict.specs.Table.{some, first};
ghost use Rattle.long_theory.specs.Long.{max_levels, max_length, digit_of, long_denominator, long_numerator};
ghost use Rattle.long_theory.specs.Tests.{long_denominator_out, digits_out, long_numerator_out, long_lengths_tests};
ghost use Rattle.long_lengths.specs.Edge.{LongEdge, LongRow, FoundBy, measure};

use tree::Tree;
use verdict::{Place, Reason, Refusal, Verdict};

// The most digits of a denominator and of a numerator.
pub const MAX_LEVELS: usize = 52;

// The highest digit.
const HIGHEST: u32 = 999_999;

// How far a length may be from 0, in halves of a thousandth.
const FARTHEST: i64 = 200_000_000_000;

// The limit as the code has it; the contract says that the definition has the same.
pub fn stated_levels() -> usize
    ensures { result ≡ max_levels }
{
    MAX_LEVELS
}

// 2000·x + b·d, of one digit.
fn term(x: i64, b: i64, d: u32) -> i64
    requires { (nat_abs x < base) × (nat_abs b ≤ 200000000001) × (d < base) }
    ensures { result ≡ measure b (pos d) x }
{
    2000 * x + b * (d as i64)
}

// 2000·n + b·D, cut off: its sign.
pub fn compare(edges: usize, levels: usize, d: &[u32], digits: &[i64], v: usize, b: i64) -> i64
    requires long_edge { LongEdge edges levels d.now digits.now v }
    requires b_bound { nat_abs b ≤ 200000000001 }
    ensures { result ≡ clamp most (measure b (pos (long_denominator levels d.now)) (long_numerator levels edges digits.now v)) }
{
    let mut whole: i64 = 0;
    for k in 0..levels {
        let next = term(digits[k * edges + v], b, d[k]);
        whole = long_sums::next_digit(whole, next);
    }
    whole
}

// Whether so many levels of so many digits are not a table of this size.
fn table_out(edges: usize, levels: usize, size: usize) -> bool
    ensures { result ≡ not (eqb size (levels * edges)) }
{
    let mut at = 0;
    for k in 0..levels {
        if size - at < edges {
            return true;
        }
        at += edges;
    }
    at != size
}

// Whether a digit of D is too high.
fn too_high(d: &[u32]) -> bool
    ensures { result ≡ some (length d.now) (λ k. ltb 999999 (get_or d.now k 0)) }
{
    for digit in d {
        if *digit > HIGHEST {
            return true;
        }
    }
    false
}

// Whether D is zero.
fn is_zero(d: &[u32]) -> bool
    ensures { result ≡ eqb (long_denominator (length d.now) d.now) 0 }
{
    for digit in d {
        if *digit != 0 {
            return false;
        }
    }
    true
}

// 12: no digits or too many, one of them too high, or all of them zero.
fn denominator_out(d: &[u32]) -> bool
    ensures { result ≡ long_denominator_out d.now }
{
    if d.len() > MAX_LEVELS {
        return true;
    }
    if too_high(d) {
        return true;
    }
    is_zero(d)
}

// Whether one of an edge's digits is what is looked for.
fn some_digit<F: Fn(i64) -> bool>(
    is_found: F,
    edges: usize,
    levels: usize,
    digits: &[i64],
    v: usize,
) -> bool
    requires row { LongRow edges levels digits.now v }
    requires is_found { F.IsAlwaysCallable is_found }
    ensures { FoundBy (F.post is_found) levels (λ k. digit_of edges digits.now k v) result }
{
    for k in 0..levels {
        if is_found(digits[k * edges + v]) {
            return true;
        }
    }
    false
}

// Whether a digit of an edge's numerator is too far from 0, or its digits have both signs.
fn digits_out(edges: usize, levels: usize, digits: &[i64], v: usize) -> bool
    requires { LongRow edges levels digits.now v }
    ensures { result ≡ digits_out levels edges digits.now v }
{
    let far = |digit: i64|
        ensures { result ≡ ltb 999999 (nat_abs digit) }
    { arithmetic::magnitude(digit) > HIGHEST as u64 };
    if some_digit(far, edges, levels, digits, v) {
        return true;
    }
    let below = |digit: i64|
        ensures { result ≡ lt_z digit (pos 0) }
    { digit < 0 };
    let above = |digit: i64|
        ensures { result ≡ lt_z (pos 0) digit }
    { digit > 0 };
    some_digit(below, edges, levels, digits, v) && some_digit(above, edges, levels, digits, v)
}

// Whether a length is too far from 0.
fn beyond(edges: usize, levels: usize, d: &[u32], digits: &[i64], v: usize) -> bool
    requires { LongEdge edges levels d.now digits.now v }
    ensures { result ≡ ltb (max_length * long_denominator levels d.now) (nat_abs (long_numerator levels edges digits.now v)) }
{
    if compare(edges, levels, d, digits, v, 0 - FARTHEST) > 0 {
        return true;
    }
    compare(edges, levels, d, digits, v, FARTHEST) < 0
}

// Whether the numerator of an edge is out of its range: a digit is, or the length.
fn numerator_out(edges: usize, d: &[u32], digits: &[i64], v: usize) -> bool
    requires long_row { LongRow edges (length d.now) digits.now v }
    requires by_index { (k : ℕ) → get_or d.now k 0 < base }
    ensures { result ≡ long_numerator_out edges d.now digits.now v }
{
    if digits_out(edges, d.len(), digits, v) {
        return true;
    }
    beyond(edges, d.len(), d, digits, v)
}

// The first edge whose numerator is; the count of edges where none is.
fn first_out(edges: usize, d: &[u32], digits: &[i64]) -> usize
    requires edges_in_bounds { length d.now * edges ≤ length digits.now }
    requires by_index { (k : ℕ) → get_or d.now k 0 < base }
    ensures { result ≡ first edges (long_numerator_out edges d.now digits.now) }
{
    for v in 0..edges {
        if numerator_out(edges, d, digits, v) {
            return v;
        }
    }
    edges
}

// 11, 12, 13, the first that applies, for any count of edges and any slices: `d` has the digits of D, `digits` as many levels of a digit for each edge.
pub fn check_long_lengths(edges: usize, d: &[u32], digits: &[i64]) -> Verdict
    ensures { answer_of result ≡ long_lengths_tests edges d.now digits.now }
{
    if table_out(edges, d.len(), digits.len()) {
        return Err(Refusal {
            reason: Reason::Edges,
            place: Place::Nowhere,
        });
    }
    if edges > Tree::MAX_EDGES {
        return Err(Refusal {
            reason: Reason::Edges,
            place: Place::Nowhere,
        });
    }
    if denominator_out(d) {
        return Err(Refusal {
            reason: Reason::Denominator,
            place: Place::Nowhere,
        });
    }
    let v = first_out(edges, d, digits);
    if v < edges {
        return Err(Refusal {
            reason: Reason::Numerator,
            place: Place::Edge(v),
        });
    }
    Ok(())
}
