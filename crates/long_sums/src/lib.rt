// For each edge the sum of the remainders of the pairs that it parts, of lengths whose denominator and numerators are written in
// digits: the sums of each digit, the highest first, each cut off where it is large.
#![tactic(auto)]

ghost use Rattle.std.specs.Prelude.{◌≡◌, ◌*◌, ◌≤◌, pos, nat_abs, ◌+ℤ◌, ◌*ℤ◌, length};
ghost use Rattle.exact.specs.Table.{table, entry_of};
ghost use Rattle.long_digits.specs.Digits.{base};
ghost use Rattle.long_digits.specs.Clamp.{clamp, most};
ghost use Rattle.tree_theory.specs.Limits.{max_edges};
ghost use Rattle.tree_theory.specs.EdgeTable.{EdgeTable};
ghost use Rattle.pairs.specs.Ready.{Ready, InRange};
ghost use Rattle.edge_sums.specs.Sums.{EdgeSums};
ghost use Rattle.long_theory.specs.Long.{long_numerator};
ghost use Rattle.long_sums.specs.Ready.{LongReady, LongSums, LongDigits, Levels};

use tree::Tree;

const BASE: i64 = 1_000_000;

const MOST: i64 = 1_000_000_000_000;

// A number in digits, cut off, with one digit more.
pub fn next_digit(high: i64, digit: i64) -> i64
    requires { (nat_abs high ≤ most) × (nat_abs digit ≤ 999999 * most) }
    ensures { result ≡ clamp most (pos base *ℤ high +ℤ digit) }
{
    let whole = BASE * high + digit;
    if whole > MOST {
        return MOST;
    }
    if whole < -MOST {
        return -MOST;
    }
    whole
}

// Each edge's number over the digits so far, with the next digit's.
fn next_level(edges: usize, tops: &[i64; Tree::MAX_EDGES], sums: &[i64]) -> [i64; Tree::MAX_EDGES]
    requires edges_le_max_edges { edges ≤ max_edges }
    requires levels { Levels edges tops.now sums.now }
    ensures { EdgeTable edges (λ v. clamp most (pos base *ℤ entry_of tops.now v +ℤ entry_of sums.now v)) result }
{
    let mut next: [i64; Tree::MAX_EDGES] = arrays::filled(0);
    for v in 0..edges {
        next[v] = next_digit(tops[v], sums[v]);
    }
    next
}

// For each edge the remainders of the pairs that it parts over one digit, then zeros: edge by edge where no pair is missing, else pair by pair.
fn level_sums(
    n: usize,
    edges: usize,
    d: u32,
    distances: &[u16],
    parents: &[u8],
    masks: &[u64; Tree::MAX_VERTICES],
    digits: &[i64],
) -> [i64; Tree::MAX_EDGES]
    requires ready { Ready n edges d distances.now parents.now masks.now digits.now }
    requires in_range { InRange edges digits.now }
    ensures { EdgeSums n edges d distances.now parents.now digits.now result }
{
    if matrix::some_missing(distances) {
        return edge_sums::edge_sums(n, edges, d, distances, parents, masks, digits);
    }
    let mut sums: [i64; Tree::MAX_EDGES] = arrays::filled(0);
    edge_numbers::remainders(n, edges, d, distances, parents, digits, &mut sums);
    sums
}

// For each edge the remainders added over the pairs that it parts, then zeros: exactly, where that is below 10^12 on either side, and
// else 10^12 with the sum's sign. The numerators' digits stand level by level, the highest first, each level with a digit of every edge.
pub fn long_sums(
    n: usize,
    edges: usize,
    levels: usize,
    d: &[u32],
    distances: &[u16],
    parents: &[u8],
    masks: &[u64; Tree::MAX_VERTICES],
    digits: &[i64],
) -> [i64; Tree::MAX_EDGES]
    requires { LongReady n edges levels d.now distances.now parents.now masks.now digits.now }
    ensures { LongSums n edges levels d.now distances.now parents.now digits.now result }
{
    let mut tops: [i64; Tree::MAX_EDGES] = arrays::filled(0);
    let mut at = 0;
    for k in 0..levels {
        let sums = level_sums(n, edges, d[k], distances, parents, masks, &digits[at..]);
        tops = next_level(edges, &tops, &sums);
        at += edges;
    }
    tops
}

// The numerator of each edge, then zeros, cut off likewise: its sign, and the number itself where it is small.
pub fn long_tops(edges: usize, levels: usize, digits: &[i64]) -> [i64; Tree::MAX_EDGES]
    requires { LongDigits edges levels digits.now }
    ensures { EdgeTable edges (λ v. clamp most (long_numerator levels edges digits.now v)) result }
{
    let mut tops: [i64; Tree::MAX_EDGES] = arrays::filled(0);
    let mut at = 0;
    for k in 0..levels {
        tops = next_level(edges, &tops, &digits[at..]);
        at += edges;
    }
    tops
}
