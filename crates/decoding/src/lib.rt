// The tables of a sheet's records, read from its bytes: each entry once, and zeros behind the last.
#![tactic(auto)]

ghost use Rattle.std.specs.Prelude.{◌≡◌, ◌+◌, ◌*◌, ◌≤◌, ◌<◌, pos, length};
ghost use Rattle.exact.specs.Table.{table, padded};
ghost use Rattle.matrix.specs.Limits.{max_strains, max_pairs};
ghost use Rattle.matrix.specs.Place.{pair_count, from_rows};
ghost use Rattle.tree_theory.specs.Limits.{max_edges};
ghost use Rattle.endian.specs.Bytes.{number, twos};

use matrix::Matrix;
use tree::Tree;

// Reads the distances of strain j with those before it from the rows that start at `at`. They go behind the `first` ones that
// are held already, those between the strains before j.
fn column(
    s: &[u8],
    at: usize,
    n: usize,
    j: usize,
    first: usize,
    held: &mut [u16; Matrix::MAX_PAIRS],
)
    requires j_nonzero { (0 < j) × (j < n) × (n ≤ max_strains) × (first ≡ pair_count j) × (at + 2 * pair_count n ≤ length s.now) }
    requires held_value { held.old ≡ padded 0 max_pairs first (from_rows n (λ k. number 2 s.now (at + 2 * k))) }
    ensures { held.new ≡ padded 0 max_pairs (first + j) (from_rows n (λ k. number 2 s.now (at + 2 * k))) }
{
    let mut row = matrix::row_place(n, 0, j);
    held[first] = endian::u16_at(s, at + 2 * row);
    for i in 0..j - 1 {
        row = matrix::row_below(n, i, j, row);
        held[first + i + 1] = endian::u16_at(s, at + 2 * row);
    }
}

// Reads the distances of n strains, whose rows start at `at`, into a table of zeros: each goes to its place in the matrix, and the zeros behind
// the last stay.
pub fn distances_into(s: &[u8], at: usize, n: usize, held: &mut [u16; Matrix::MAX_PAIRS])
    requires n_le_max_strains { (n ≤ max_strains) × (at + 2 * pair_count n ≤ length s.now) }
    requires held_value { held.old ≡ table max_pairs (λ _. 0) }
    ensures { held.new ≡ padded 0 max_pairs (pair_count n) (from_rows n (λ k. number 2 s.now (at + 2 * k))) }
{
    let mut first = 0;
    for j in 1..n {
        column(s, at, n, j, first, held);
        first += j;
    }
}

// Reads the numerators that start at `at` into a table of zeros; the zeros behind the last stay.
pub fn numerators_into(s: &[u8], at: usize, count: usize, held: &mut [i64; Tree::MAX_EDGES])
    requires count_le_max_edges { (count ≤ max_edges) × (at + 8 * count ≤ length s.now) }
    requires held_value { held.old ≡ table max_edges (λ _. pos 0) }
    ensures { held.new ≡ padded (pos 0) max_edges count (λ k. twos (number 8 s.now (at + 8 * k))) }
{
    for k in 0..count {
        let x = endian::i64_at(s, at + 8 * k);
        held[k] = x;
    }
}

// The same in a table of its own.
pub fn numerators(s: &[u8], at: usize, count: usize) -> [i64; Tree::MAX_EDGES]
    requires { (count ≤ max_edges) × (at + 8 * count ≤ length s.now) }
    ensures { result ≡ padded (pos 0) max_edges count (λ k. twos (number 8 s.now (at + 8 * k))) }
{
    let mut held: [i64; Tree::MAX_EDGES] = arrays::filled(0);
    numerators_into(s, at, count, &mut held);
    held
}
