// The numbers of an accepted fit: the tree length, the rounded lengths, F, R and H.
#![tactic(auto)]

ghost use Rattle.std.specs.Prelude.{◌≡◌, cond, ◌+◌, ◌-◌, ◌≤◌, ◌<◌, ltb, pos};
ghost use Rattle.exact.specs.Sum.{sum, pairs};
ghost use Rattle.exact.specs.Table.{table, entry_of};
ghost use Rattle.exact.specs.Nearest.{nearest};
ghost use Rattle.exact.specs.LeastSquares.{sum_f, sum_x, sum_r, sum_h};
ghost use Rattle.matrix.specs.Place.{distance};
ghost use Rattle.tree_theory.specs.Limits.{max_edges};
ghost use Rattle.tree_theory.specs.Chain.{parent_of};
ghost use Rattle.fit_theory.specs.Quantities.{parts_in};
ghost use Rattle.inner_paths.specs.Between.{Between};
ghost use Rattle.pairs.specs.Ready.{InRange, remainder_at};
ghost use Rattle.exact.specs.Fits.{Fits63};
ghost use Rattle.fit_numbers.specs.Terms.{Summable, term_of};

use edge_numbers::{Figures, Squared};
use inner_paths::SPOTS;
use matrix::Matrix;
use tree::Tree;

// The numerator of the tree length: the sum of all numerators.
pub fn total(edges: usize, numerators: &[i64]) -> i64
    requires edges_le_max_edges { edges ≤ max_edges }
    requires in_range { InRange edges numerators.now }
    ensures { result ≡ sum edges (entry_of numerators.now) }
{
    let mut sum: i64 = 0;
    for edge in 0..edges {
        sum += numerators[edge];
    }
    sum
}

// m: each length in thousandths, then zeros.
pub fn rounded(edges: usize, d: u32, numerators: &[i64]) -> [i64; Tree::MAX_EDGES]
    requires edges_le_max_edges { (edges ≤ max_edges) × (1 ≤ d) }
    requires in_range { InRange edges numerators.now }
    ensures { result ≡ table max_edges (λ v. cond (ltb v edges) (nearest d (entry_of numerators.now v)) (pos 0)) }
{
    let mut lengths: [i64; Tree::MAX_EDGES] = arrays::filled(0);
    for v in 0..edges {
        lengths[v] = arithmetic::thousandths(numerators[v], d);
    }
    lengths
}

// The remainder of a measured pair, by the paths between inner vertices over the entries x: d times its distance, less its
// path; 0 for one that is missing.
fn remainder(
    n: usize,
    edges: usize,
    d: u32,
    distances: &[u16],
    parents: &[u8],
    x: &[i64],
    between: &[i64; SPOTS],
    i: usize,
    j: usize,
) -> i64
    requires summable { Summable n edges d distances.now parents.now x.now }
    requires between { Between edges (parent_of parents.now) (entry_of x.now) (edges - n + 1) between.now }
    requires i_lt_j { (i < j) × (j < n) }
    ensures { result ≡ remainder_at edges d distances.now parents.now x.now (i, j) }
{
    let observed = distances[matrix::place(i, j)];
    if observed == Matrix::MISSING {
        return 0;
    }
    d as i64 * observed as i64 - inner_paths::path(n, edges, parents, x, between, i, j)
}

// What a pair adds to F: its distance times its remainder; nothing where it is missing.
fn product(
    n: usize,
    edges: usize,
    d: u32,
    distances: &[u16],
    parents: &[u8],
    numerators: &[i64],
    between: &[i64; SPOTS],
    i: usize,
    j: usize,
) -> i64
    requires summable { Summable n edges d distances.now parents.now numerators.now }
    requires in_range { InRange edges numerators.now }
    requires between { Between edges (parent_of parents.now) (entry_of numerators.now) (edges - n + 1) between.now }
    requires i_lt_j { (i < j) × (j < n) }
    ensures { result ≡ term_of edges d distances.now parents.now numerators.now (i, j) }
{
    let far = distances[matrix::place(i, j)];
    if far == Matrix::MISSING {
        return 0;
    }
    far as i64 * remainder(n, edges, d, distances, parents, numerators, between, i, j)
}

// F: the sum of d·r over the measured pairs. The sum travels modulo 2^64, and the total is exact where it fits.
pub fn sum_f(
    n: usize,
    edges: usize,
    d: u32,
    distances: &[u16],
    parents: &[u8],
    numerators: &[i64],
) -> i64
    requires summable { Summable n edges d distances.now parents.now numerators.now }
    requires in_range { InRange edges numerators.now }
    requires fits63 { Fits63 (sum_f (pairs n) edges (parts_in distances.now parents.now) (distance distances.now) (pos d) (entry_of numerators.now)) }
    ensures { result ≡ sum_f (pairs n) edges (parts_in distances.now parents.now) (distance distances.now) (pos d) (entry_of numerators.now) }
{
    let between = inner_paths::inner_paths(n, edges, parents, numerators);
    let mut acc: u64 = 0;
    for j in 1..n {
        for i in 0..j {
            let term = product(n, edges, d, distances, parents, numerators, &between, i, j);
            acc = arithmetic::accumulate(acc, term);
        }
    }
    acc as i64
}

// X: the sum of the squares of the remainders over d and the entries x.
fn sum_x(n: usize, edges: usize, d: u32, distances: &[u16], parents: &[u8], x: &[i64]) -> i64
    requires summable { Summable n edges d distances.now parents.now x.now }
    requires fits63 { Fits63 (sum_x (pairs n) edges (parts_in distances.now parents.now) (distance distances.now) (pos d) (entry_of x.now)) }
    ensures { result ≡ sum_x (pairs n) edges (parts_in distances.now parents.now) (distance distances.now) (pos d) (entry_of x.now) }
{
    let between = inner_paths::inner_paths(n, edges, parents, x);
    let mut sum: i64 = 0;
    for j in 1..n {
        for i in 0..j {
            let off = remainder(n, edges, d, distances, parents, x, &between, i, j);
            sum += off * off;
        }
    }
    sum
}

// Pair by pair: R is X over thousandths, and H is X over ones with no distances.
fn squares_by_pairs(
    n: usize,
    edges: usize,
    distances: &[u16],
    parents: &[u8],
    lengths: &[i64],
) -> Squared
    requires summable { Summable n edges 1000 distances.now parents.now lengths.now }
    requires fits63 { Fits63 (sum_r (pairs n) edges (parts_in distances.now parents.now) (distance distances.now) (entry_of lengths.now)) }
    ensures r_value { result.r ≡ sum_r (pairs n) edges (parts_in distances.now parents.now) (distance distances.now) (entry_of lengths.now) }
    ensures h_value { result.h ≡ sum_h (pairs n) edges (parts_in distances.now parents.now) }
{
    let one_each: [i64; Tree::MAX_EDGES] = arrays::filled(1);
    Squared {
        r: sum_x(n, edges, 1000, distances, parents, lengths),
        h: sum_x(n, edges, 0, distances, parents, &one_each),
    }
}

// Where no pair is missing the edges give both.
pub fn sum_squares(
    n: usize,
    edges: usize,
    distances: &[u16],
    parents: &[u8],
    lengths: &[i64],
) -> Squared
    requires summable { Summable n edges 1000 distances.now parents.now lengths.now }
    requires fits63 { Fits63 (sum_r (pairs n) edges (parts_in distances.now parents.now) (distance distances.now) (entry_of lengths.now)) }
    ensures r_value { result.r ≡ sum_r (pairs n) edges (parts_in distances.now parents.now) (distance distances.now) (entry_of lengths.now) }
    ensures h_value { result.h ≡ sum_h (pairs n) edges (parts_in distances.now parents.now) }
{
    if matrix::some_missing(distances) {
        return squares_by_pairs(n, edges, distances, parents, lengths);
    }
    edge_numbers::square_sums(n, edges, distances, parents, lengths)
}

// F of the lengths, and the sums of squares of their rounding: by the edges where no pair is missing, else pair by pair.
pub fn figures(
    n: usize,
    edges: usize,
    d: u32,
    distances: &[u16],
    parents: &[u8],
    numerators: &[i64],
    lengths: &[i64],
) -> Figures
    requires summable { Summable n edges d distances.now parents.now numerators.now }
    requires in_range { InRange edges numerators.now }
    requires fits63 { Fits63 (sum_f (pairs n) edges (parts_in distances.now parents.now) (distance distances.now) (pos d) (entry_of numerators.now)) }
    requires summable_2 { Summable n edges 1000 distances.now parents.now lengths.now }
    requires fits63_2 { Fits63 (sum_r (pairs n) edges (parts_in distances.now parents.now) (distance distances.now) (entry_of lengths.now)) }
    ensures f_value { result.f ≡ sum_f (pairs n) edges (parts_in distances.now parents.now) (distance distances.now) (pos d) (entry_of numerators.now) }
    ensures r_value { result.r ≡ sum_r (pairs n) edges (parts_in distances.now parents.now) (distance distances.now) (entry_of lengths.now) }
    ensures h_value { result.h ≡ sum_h (pairs n) edges (parts_in distances.now parents.now) }
{
    let missing = matrix::some_missing(distances);
    if missing {
        let squares = squares_by_pairs(n, edges, distances, parents, lengths);
        return Figures {
            f: sum_f(n, edges, d, distances, parents, numerators),
            r: squares.r,
            h: squares.h,
        };
    }
    edge_numbers::numbers(n, edges, d, distances, parents, numerators, lengths)
}
