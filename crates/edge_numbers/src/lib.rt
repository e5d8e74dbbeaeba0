// The numbers of a fit edge by edge, where no pair is missing: for each edge its sum of remainders, and of all pairs F and the sums of
// squares. Each is had from what a table has for the pairs that an edge parts (splits) and from their paths (path_sums), so that no
// pair is looked at by itself.
#![tactic(auto)]

ghost use Rattle.std.specs.Prelude.{◌≡◌, ℕ, ◌*◌, ◌%◌, ◌^◌, ◌<◌, ◌≤◌, length, pos, ◌+ℤ◌, ◌*ℤ◌, slice_index, unsigned_abs};
ghost use Rattle.exact.specs.Sum.{sum, pairs};
ghost use Rattle.exact.specs.Table.{table, entry_of};
ghost use Rattle.exact.specs.Modulo.{Modulo};
ghost use Rattle.exact.specs.Fits.{Fits63};
ghost use Rattle.exact.specs.LeastSquares.{edge_sum, sum_f, sum_r, sum_h};
ghost use Rattle.matrix.specs.Limits.{max_distance, max_pairs};
ghost use Rattle.lengths.specs.Limits.{max_denominator};
ghost use Rattle.tree_theory.specs.Limits.{max_edges};
ghost use Rattle.tree_theory.specs.Chain.{parent_of, parts_pair};
ghost use Rattle.tree_theory.specs.Allowed.{Allowed};
ghost use Rattle.tree_theory.specs.EdgeTable.{EdgeTable};
ghost use Rattle.inner_paths.specs.Between.{Lengthened};
ghost use Rattle.splits.specs.Sums.{entry_at, Splittable};
ghost use Rattle.edge_numbers.specs.Squares.{square_at, max_squares};
ghost use Rattle.edge_numbers.specs.Mixes.{Mixable, Mixed};
ghost use Rattle.edge_numbers.specs.Taken.{TakenOff};

use tree::Tree;

// Half a word: what a digit of 32 bits is below.
const HALF: u64 = 4_294_967_296;

// The product of two numbers, modulo 2^64: by digits of 32 bits, whose products fit.
fn product(x: u64, y: u64) -> u64
    ensures { result ≡ x * y % 2 ^ 64 }
{
    let low = x % HALF;
    let high = x / HALF;
    let lower = y % HALF;
    let higher = y / HALF;
    let cross = std::num::wrapping_add_u64(high * lower, low * higher);
    std::num::wrapping_add_u64(low * lower, cross % HALF * HALF)
}

// The accumulator acc with the product of a and b added, modulo 2^64.
fn gather(acc: u64, a: i64, b: i64) -> u64
    ensures { Modulo result (pos acc +ℤ a *ℤ b) }
{
    let size = product(arithmetic::magnitude(a), arithmetic::magnitude(b));
    if a >= 0 {
        if b >= 0 {
            return std::num::wrapping_add_u64(acc, size);
        }
        return std::num::wrapping_sub_u64(acc, size);
    }
    if b >= 0 {
        return std::num::wrapping_sub_u64(acc, size);
    }
    std::num::wrapping_add_u64(acc, size)
}

// The accumulator acc with the products of the entries of two tables added, an edge a turn, modulo 2^64.
fn weighted(acc: u64, edges: usize, x: &[i64], y: &[i64]) -> u64
    requires { (edges ≤ length x.now) × (edges ≤ length y.now) }
    ensures { Modulo result (pos acc +ℤ sum edges (λ v. entry_of x.now v *ℤ entry_of y.now v)) }
{
    let mut held = acc;
    for v in 0..edges {
        held = gather(held, x[v], y[v]);
    }
    held
}

// The squares of the first numbers of a table, added up.
fn squares(distances: &[u16], count: usize) -> u64
    requires count_in_bounds { (count ≤ length distances.now) × (count ≤ max_pairs) }
    requires by_index { (k : ℕ) → slice_index distances.now k ≤ max_distance }
    ensures { (pos result ≡ sum count (λ k. square_at distances.now k)) × (result ≤ max_squares) }
{
    let mut sum: u64 = 0;
    for k in 0..count {
        let far = distances[k] as u64;
        sum = sum + far * far;
    }
    sum
}

// a times x, with b times y added.
fn blend(a: i64, x: i64, b: i64, y: i64) -> i64
    requires { (unsigned_abs (a *ℤ x) < 2 ^ 63) × (unsigned_abs (b *ℤ y) < 2 ^ 63) × (unsigned_abs (a *ℤ x +ℤ b *ℤ y) < 2 ^ 63) }
    ensures { result ≡ a *ℤ x +ℤ b *ℤ y }
{
    a * x + b * y
}

// Two tables mixed: each entry of the first times a, with the same entry of the second times b added. The first is written over.
fn mix(
    edges: usize,
    a: i64,
    b: i64,
    sums: &mut [i64; Tree::MAX_EDGES],
    paths: &[i64; Tree::MAX_VERTICES],
)
    requires edges_le_max_edges { (edges ≤ max_edges) × (length sums.old ≡ max_edges) }
    requires mixable { Mixable edges a b sums.old paths.now }
    ensures { Mixed edges a b sums.old paths.now sums.new }
{
    for v in 0..edges {
        let mixed = blend(a, sums[v], b, paths[v]);
        sums[v] = mixed;
    }
}

// F: the sum of d·r over the pairs, where the table has for each edge what its pairs take off. The sum travels modulo 2^64, and the total
// is exact where it fits.
fn f_of(
    n: usize,
    edges: usize,
    d: u32,
    distances: &[u16],
    parents: &[u8],
    numerators: &[i64],
    taken: &[i64; Tree::MAX_EDGES],
) -> i64
    requires splittable { Splittable n edges distances.now parents.now }
    requires edges_in_bounds { (edges ≤ length numerators.now) × (d ≤ max_denominator) }
    requires taken_off { TakenOff n edges distances.now (parent_of parents.now) taken.now }
    requires fits63 { Fits63 (sum_f (pairs n) edges (parts_pair (parent_of parents.now)) (entry_at distances.now) (pos d) (entry_of numerators.now)) }
    ensures { result ≡ sum_f (pairs n) edges (parts_pair (parent_of parents.now)) (entry_at distances.now) (pos d) (entry_of numerators.now) }
{
    let whole = squares(distances, matrix::pair_count(n as u32) as usize);
    weighted(d as u64 * whole, edges, numerators, taken) as i64
}

// R: the sum of the squares of the remainders over 1000 and the rounded lengths, likewise. The table of what is taken off is written over.
fn r_of(
    n: usize,
    edges: usize,
    distances: &[u16],
    parents: &[u8],
    lengths: &[i64],
    taken: &mut [i64; Tree::MAX_EDGES],
) -> i64
    requires splittable { Splittable n edges distances.now parents.now }
    requires lengthened { Lengthened n edges parents.now lengths.now }
    requires taken_off { TakenOff n edges distances.now (parent_of parents.now) taken.old }
    requires fits63 { Fits63 (sum_r (pairs n) edges (parts_pair (parent_of parents.now)) (entry_at distances.now) (entry_of lengths.now)) }
    ensures { result ≡ sum_r (pairs n) edges (parts_pair (parent_of parents.now)) (entry_at distances.now) (entry_of lengths.now) }
{
    let mut paths: [i64; Tree::MAX_VERTICES] = arrays::filled(0);
    path_sums::path_sums(n, edges, parents, lengths, &mut paths);
    mix(edges, 2000, 1, taken, &paths);
    let whole = squares(distances, matrix::pair_count(n as u32) as usize);
    let mixed = &taken[..];
    weighted(1_000_000 * whole, edges, lengths, mixed) as i64
}

// H: the sum of the squares of the numbers of edges that part the pairs.
fn h_of(n: usize, edges: usize, parents: &[u8]) -> i64
    requires edges_in_bounds { (edges ≤ length parents.now) × Allowed n edges (parent_of parents.now) }
    requires fits63 { Fits63 (sum_h (pairs n) edges (parts_pair (parent_of parents.now))) }
    ensures { result ≡ sum_h (pairs n) edges (parts_pair (parent_of parents.now)) }
{
    let one_each: [i64; Tree::MAX_EDGES] = arrays::filled(1);
    let mut paths: [i64; Tree::MAX_VERTICES] = arrays::filled(0);
    path_sums::path_sums(n, edges, parents, &one_each, &mut paths);
    weighted(0, edges, &one_each, &paths) as i64
}

// For each edge the remainders of the pairs that it parts, added up, in a lent table of zeros: d times what the table of distances
// has for these pairs, less their paths.
pub fn remainders(
    n: usize,
    edges: usize,
    d: u32,
    distances: &[u16],
    parents: &[u8],
    numerators: &[i64],
    sums: &mut [i64; Tree::MAX_EDGES],
)
    requires splittable { Splittable n edges distances.now parents.now }
    requires lengthened { Lengthened n edges parents.now numerators.now }
    requires d_le_max_denominator { d ≤ max_denominator }
    requires sums_value { sums.old ≡ table max_edges (λ _. pos 0) }
    ensures { EdgeTable edges (edge_sum (pairs n) edges (parts_pair (parent_of parents.now)) (entry_at distances.now) (pos d) (entry_of numerators.now)) sums.new }
{
    splits::splits(n, edges, distances, parents, sums);
    let mut paths: [i64; Tree::MAX_VERTICES] = arrays::filled(0);
    path_sums::path_sums(n, edges, parents, numerators, &mut paths);
    mix(edges, d as i64, -1, sums, &paths);
}

// What the pairs of each edge take off: its split sum below zero.
fn taken_off(n: usize, edges: usize, distances: &[u16], parents: &[u8]) -> [i64; Tree::MAX_EDGES]
    requires { Splittable n edges distances.now parents.now }
    ensures { TakenOff n edges distances.now (parent_of parents.now) result }
{
    let mut sums: [i64; Tree::MAX_EDGES] = arrays::filled(0);
    splits::splits(n, edges, distances, parents, &mut sums);
    let none: [i64; Tree::MAX_VERTICES] = arrays::filled(0);
    mix(edges, -1, 0, &mut sums, &none);
    sums
}

// The two sums of squares: R of the rounded lengths, and H.
#[derive(Clone, Copy)]
pub struct Squared {
    pub r: i64,
    pub h: i64,
}

// F of the lengths and the sums of squares of their rounding.
#[derive(Clone, Copy)]
pub struct Figures {
    pub f: i64,
    pub r: i64,
    pub h: i64,
}

pub fn square_sums(
    n: usize,
    edges: usize,
    distances: &[u16],
    parents: &[u8],
    lengths: &[i64],
) -> Squared
    requires splittable { Splittable n edges distances.now parents.now }
    requires lengthened { Lengthened n edges parents.now lengths.now }
    requires fits63 { Fits63 (sum_r (pairs n) edges (parts_pair (parent_of parents.now)) (entry_at distances.now) (entry_of lengths.now)) }
    requires fits63_2 { Fits63 (sum_h (pairs n) edges (parts_pair (parent_of parents.now))) }
    ensures r_value { result.r ≡ sum_r (pairs n) edges (parts_pair (parent_of parents.now)) (entry_at distances.now) (entry_of lengths.now) }
    ensures h_value { result.h ≡ sum_h (pairs n) edges (parts_pair (parent_of parents.now)) }
{
    let mut taken = taken_off(n, edges, distances, parents);
    Squared {
        r: r_of(n, edges, distances, parents, lengths, &mut taken),
        h: h_of(n, edges, parents),
    }
}

// All three, with what the pairs take off worked once.
pub fn numbers(
    n: usize,
    edges: usize,
    d: u32,
    distances: &[u16],
    parents: &[u8],
    numerators: &[i64],
    lengths: &[i64],
) -> Figures
    requires splittable { Splittable n edges distances.now parents.now }
    requires edges_in_bounds { (edges ≤ length numerators.now) × (d ≤ max_denominator) }
    requires lengthened { Lengthened n edges parents.now lengths.now }
    requires fits63 { Fits63 (sum_f (pairs n) edges (parts_pair (parent_of parents.now)) (entry_at distances.now) (pos d) (entry_of numerators.now)) }
    requires fits63_2 { Fits63 (sum_r (pairs n) edges (parts_pair (parent_of parents.now)) (entry_at distances.now) (entry_of lengths.now)) }
    requires fits63_3 { Fits63 (sum_h (pairs n) edges (parts_pair (parent_of parents.now))) }
    ensures f_value { result.f ≡ sum_f (pairs n) edges (parts_pair (parent_of parents.now)) (entry_at distances.now) (pos d) (entry_of numerators.now) }
    ensures r_value { result.r ≡ sum_r (pairs n) edges (parts_pair (parent_of parents.now)) (entry_at distances.now) (entry_of lengths.now) }
    ensures h_value { result.h ≡ sum_h (pairs n) edges (parts_pair (parent_of parents.now)) }
{
    let mut taken = taken_off(n, edges, distances, parents);
    let f = f_of(n, edges, d, distances, parents, numerators, &taken);
    Figures {
        f,
        r: r_of(n, edges, distances, parents, lengths, &mut taken),
        h: h_of(n, edges, parents),
    }
}
