// The numbers of a fit in digits, level by level: tables of what each level gives by itself. What a number is, its levels tell by Horner's rule.
#![tactic(auto)]

ghost use Rattle.std.specs.Prelude.{◌≡◌, ℕ, ◌*◌, ◌≤◌, ◌<◌, pos, nat_abs, ◌-ℤ◌, ◌*ℤ◌, length, get_or};
ghost use Rattle.exact.specs.Sum.{sum};
ghost use Rattle.exact.specs.Table.{table, entry_of};
ghost use Rattle.long_digits.specs.Digits.{base};
ghost use Rattle.tree_theory.specs.Limits.{max_edges};
ghost use Rattle.long_theory.specs.Long.{max_levels, digit_of};
ghost use Rattle.long_levels.specs.Levels.{LevelTable, Splits, Level, level_f};

use long_lengths::MAX_LEVELS;
use tree::Tree;

// What each level's digits add to: the levels of the tree length.
pub fn total_levels(edges: usize, levels: usize, digits: &[i64]) -> [i64; MAX_LEVELS]
    requires levels_le_max_levels { (levels ≤ max_levels) × (edges ≤ max_edges) × (levels * edges ≤ length digits.now) }
    requires by_index { (k : ℕ) → nat_abs (entry_of digits.now k) < base }
    ensures { LevelTable levels (λ k. sum edges (digit_of edges digits.now k)) result }
{
    let mut sums: [i64; MAX_LEVELS] = arrays::filled(0);
    let mut at = 0;
    for k in 0..levels {
        sums[k] = fit_numbers::total(edges, &digits[at..]);
        at += edges;
    }
    sums
}

// One level of F: a digit of D times the sum of squared distances, less each edge's digit times its split sum.
fn level_f(
    edges: usize,
    d: u32,
    squares: i64,
    splits: &[i64; Tree::MAX_EDGES],
    level: &[i64],
) -> i64
    requires splits { Splits edges squares splits.now }
    requires d_lt_base { (d < base) × Level edges level.now }
    ensures { (result ≡ level_f edges squares (entry_of splits.now) (pos d) (entry_of level.now)) × (nat_abs result ≤ 9000000000000000000) }
{
    let mut f = d as i64 * squares;
    for v in 0..edges {
        f -= level[v] * splits[v];
    }
    f
}

// The levels of F.
pub fn f_levels(
    edges: usize,
    levels: usize,
    squares: i64,
    splits: &[i64; Tree::MAX_EDGES],
    d: &[u32],
    digits: &[i64],
) -> [i64; MAX_LEVELS]
    requires splits { Splits edges squares splits.now }
    requires levels_le_max_levels { (levels ≤ max_levels) × (levels ≤ length d.now) × (levels * edges ≤ length digits.now) }
    requires by_index { ((k : ℕ) → get_or d.now k 0 < base) × ((k : ℕ) → nat_abs (entry_of digits.now k) < base) }
    ensures { LevelTable levels (λ k. level_f edges squares (entry_of splits.now) (pos (get_or d.now k 0)) (digit_of edges digits.now k)) result }
{
    let mut sums: [i64; MAX_LEVELS] = arrays::filled(0);
    let mut at = 0;
    for k in 0..levels {
        sums[k] = level_f(edges, d[k], squares, splits, &digits[at..]);
        at += edges;
    }
    sums
}

// The levels of D times a count.
pub fn times_levels(levels: usize, d: &[u32], count: u32) -> [i64; MAX_LEVELS]
    requires levels_le_max_levels { (levels ≤ max_levels) × (levels ≤ length d.now) × (count ≤ 1000000) }
    requires by_index { (k : ℕ) → get_or d.now k 0 < base }
    ensures { LevelTable levels (λ k. pos (get_or d.now k 0) *ℤ pos count) result }
{
    let mut products: [i64; MAX_LEVELS] = arrays::filled(0);
    for k in 0..levels {
        products[k] = d[k] as i64 * count as i64;
    }
    products
}

// Levels with the other sign.
pub fn negated(levels: usize, f: &[i64]) -> [i64; MAX_LEVELS]
    requires levels_le_max_levels { (levels ≤ max_levels) × (levels ≤ length f.now) }
    requires by_index { (k : ℕ) → k < levels → nat_abs (entry_of f.now k) ≤ 9000000000000000000 }
    ensures { LevelTable levels (λ k. pos 0 -ℤ entry_of f.now k) result }
{
    let mut others: [i64; MAX_LEVELS] = arrays::filled(0);
    for k in 0..levels {
        others[k] = 0 - f[k];
    }
    others
}
