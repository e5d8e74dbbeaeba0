// The numbers of a fit in digits: its lengths in thousandths, the tree length, F, R and H, and what the mean square is over.
#![tactic(auto)]

ghost use Rattle.std.specs.Prelude.{◌≡◌, ℕ, ◌≤◌, ◌<◌, nat_abs, length, get_or};
ghost use Rattle.exact.specs.Nearest.{nearest};
ghost use Rattle.exact.specs.Table.{entry_of};
ghost use Rattle.matrix.specs.Proper.{Proper};
ghost use Rattle.tree_theory.specs.EdgeTable.{EdgeTable};
ghost use Rattle.mean.specs.Mean.{mean_of};
ghost use Rattle.long_digits.specs.Digits.{base};
ghost use Rattle.long_theory.specs.Long.{max_levels, long_denominator, long_numerator, LongProper, LongStands};
ghost use Rattle.long_reporting.specs.Reported.{Means, LongReported};

use long_carrying::WIDE;
use long_numbers::Wide;
use tree::Tree;
use verdict::Rule;

// What the mean square is over, in digits, where it has one.
pub type LongMean = Option<[u32; WIDE]>;

// The numbers of an accepted fit. The tree length is length / D, the sum of squares f / D, the mean square f over what mean says; the rounded lengths
// are followed by zeros.
#[derive(Clone, Copy)]
pub struct LongReport {
    pub strains: u32,
    pub edges: usize,
    pub rounded: [i64; Tree::MAX_EDGES],
    pub length: Wide,
    pub f: [u32; WIDE],
    pub r: i64,
    pub h: i64,
    pub mean: LongMean,
}

// m: each length in thousandths, then zeros.
fn long_rounded(edges: usize, d: &[u32], digits: &[i64]) -> [i64; Tree::MAX_EDGES]
    requires { LongProper edges d.now digits.now }
    ensures edge_table { EdgeTable edges (λ v. nearest (long_denominator (length d.now) d.now) (long_numerator (length d.now) edges digits.now v)) result }
    ensures by_index { (v : ℕ) → v < edges → nat_abs (entry_of result v) ≤ 100000000001 }
{
    let mut lengths: [i64; Tree::MAX_EDGES] = arrays::filled(0);
    for v in 0..edges {
        lengths[v] = long_rounding::long_thousandths(edges, d.len(), d, digits, v);
    }
    lengths
}

// D times the pairs less the edges, or none.
fn long_mean(n: u32, distances: &[u16], edges: usize, d: &[u32]) -> LongMean
    requires proper { Proper n distances.now }
    requires d_len_bound { (length d.now ≤ max_levels) × ((k : ℕ) → get_or d.now k 0 < base) }
    ensures { Means (length d.now) (mean_of n distances.now edges (long_denominator (length d.now) d.now)) result }
{
    let left = mean::mean_over(n, distances, edges, 1)?;
    Some(long_numbers::long_times(d.len(), d, left as u32))
}

// The numbers of lengths in digits that fit.
pub fn long_numbered(
    rule: Rule,
    n: u32,
    distances: &[u16],
    parents: &[u8],
    d: &[u32],
    digits: &[i64],
) -> LongReport
    requires { LongStands rule n distances.now parents.now d.now digits.now }
    ensures { LongReported rule n distances.now parents.now d.now digits.now result }
{
    let strains = n as usize;
    let edges = parents.len();
    let levels = d.len();
    let masks = clusters::clusters(strains, parents);
    let rounded = long_rounded(edges, d, digits);
    let f = long_numbers::long_f(
        strains, edges, levels, d, distances, parents, &masks, digits,
    );
    let squares = fit_numbers::sum_squares(strains, edges, distances, parents, &rounded);
    LongReport {
        strains: n,
        edges,
        rounded,
        length: long_numbers::long_total(edges, levels, digits),
        f,
        r: squares.r,
        h: squares.h,
        mean: long_mean(n, distances, edges, d),
    }
}
