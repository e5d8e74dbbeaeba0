// The numbers of a fit in digits: the tree length, F, and what the mean square is over, each in digits again.
#![tactic(auto)]

ghost use Rattle.std.specs.Prelude.{◌≡◌, ℕ, ◌*◌, ◌≤◌, ◌<◌, pos, nat_abs, length, get_or};
ghost use Rattle.exact.specs.Order.{◌≤ᶻ◌};
ghost use Rattle.exact.specs.Sum.{sum, pairs};
ghost use Rattle.exact.specs.Table.{entry_of};
ghost use Rattle.exact.specs.LeastSquares.{sum_f};
ghost use Rattle.matrix.specs.Place.{distance};
ghost use Rattle.tree_theory.specs.Limits.{max_edges};
ghost use Rattle.fit_theory.specs.Quantities.{parts_in};
ghost use Rattle.long_digits.specs.Digits.{base, value};
ghost use Rattle.long_digits.specs.Clamp.{clamp, most};
ghost use Rattle.long_theory.specs.Long.{max_levels, long_denominator, long_numerator};
ghost use Rattle.long_sums.specs.Ready.{LongReady};
ghost use Rattle.long_numbers.specs.Wides.{Natural, Wides};

use long_carrying::WIDE;
use tree::Tree;

// A whole number in digits, and whether it is negative.
#[derive(Clone, Copy)]
pub struct Wide {
    pub negative: bool,
    pub digits: [u32; WIDE],
}

// The number that levels write, cut off: its sign.
fn sign(levels: usize, f: &[i64]) -> i64
    requires levels_in_bounds { levels ≤ length f.now }
    requires by_index { (k : ℕ) → k < levels → nat_abs (entry_of f.now k) ≤ 999999 * most }
    ensures { result ≡ clamp most (value levels (entry_of f.now)) }
{
    let mut whole: i64 = 0;
    for k in 0..levels {
        whole = long_sums::next_digit(whole, f[k]);
    }
    whole
}

// The numerator of the tree length: the sum of all numerators.
pub fn long_total(edges: usize, levels: usize, digits: &[i64]) -> Wide
    requires levels_le_max_levels { (levels ≤ max_levels) × (edges ≤ max_edges) × (levels * edges ≤ length digits.now) }
    requires by_index { (k : ℕ) → nat_abs (entry_of digits.now k) < base }
    ensures { Wides levels (sum edges (long_numerator levels edges digits.now)) result.negative result.digits }
{
    let sums = long_levels::total_levels(edges, levels, digits);
    if sign(levels, &sums) < 0 {
        let others = long_levels::negated(levels, &sums);
        return Wide {
            negative: true,
            digits: long_carrying::carried(levels, &others),
        };
    }
    Wide {
        negative: false,
        digits: long_carrying::carried(levels, &sums),
    }
}

// F, which is not negative for a fit.
pub fn long_f(
    n: usize,
    edges: usize,
    levels: usize,
    d: &[u32],
    distances: &[u16],
    parents: &[u8],
    masks: &[u64; Tree::MAX_VERTICES],
    digits: &[i64],
) -> [u32; WIDE]
    requires long_ready { LongReady n edges levels d.now distances.now parents.now masks.now digits.now }
    requires levels_le_max_levels { (levels ≤ max_levels) × (pos 0 ≤ᶻ sum_f (pairs n) edges (parts_in distances.now parents.now) (distance distances.now) (pos (long_denominator levels d.now)) (long_numerator levels edges digits.now)) }
    ensures { Natural levels (nat_abs (sum_f (pairs n) edges (parts_in distances.now parents.now) (distance distances.now) (pos (long_denominator levels d.now)) (long_numerator levels edges digits.now))) result }
{
    let zeros: [i64; Tree::MAX_EDGES] = arrays::filled(0);
    let squares = fit_numbers::sum_f(n, edges, 1, distances, parents, &zeros);
    let splits = edge_sums::edge_sums(n, edges, 1, distances, parents, masks, &zeros);
    let f = long_levels::f_levels(edges, levels, squares, &splits, d, digits);
    long_carrying::carried(levels, &f)
}

// D times a count.
pub fn long_times(levels: usize, d: &[u32], count: u32) -> [u32; WIDE]
    requires levels_le_max_levels { (levels ≤ max_levels) × (levels ≤ length d.now) × (count ≤ 1000000) }
    requires by_index { (k : ℕ) → get_or d.now k 0 < base }
    ensures { Natural levels (long_denominator levels d.now * count) result }
{
    let products = long_levels::times_levels(levels, d, count);
    long_carrying::carried(levels, &products)
}
