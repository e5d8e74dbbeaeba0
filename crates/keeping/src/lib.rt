// What is kept beside a matrix and a tree that pass, worked afresh: every edge's split sum, and how many measured pairs it parts.
#![tactic(auto)]

ghost use Rattle.std.specs.Prelude.{◌≡◌, ◌≤◌, length, take};
ghost use Rattle.exact.specs.Table.{table};
ghost use Rattle.matrix.specs.Limits.{max_pairs};
ghost use Rattle.fit_theory.specs.Stands.{Posted};
ghost use Rattle.correction_theory.specs.Kept.{Beside, one, ones};

use matrix::Matrix;
use tree::Tree;

// An entry for each edge, then zeros.
#[derive(Clone, Copy)]
pub struct Kept {
    pub sums: [i64; Tree::MAX_EDGES],
    pub counts: [i64; Tree::MAX_EDGES],
}

// 1 for a measured pair, 0 for a missing one.
fn one_of(far: u16) -> u16
    ensures { result ≡ one far }
{
    if far == Matrix::MISSING {
        return 0;
    }
    1
}

// That for each pair of a matrix.
fn ones_of(distances: &[u16]) -> [u16; Matrix::MAX_PAIRS]
    requires { length distances.now ≤ max_pairs }
    ensures { (length result ≡ max_pairs) × (take (length distances.now) result ≡ ones distances.now) }
{
    let mut held: [u16; Matrix::MAX_PAIRS] = arrays::filled(1);
    for (k, distance) in distances.iter().enumerate() {
        held[k] = one_of(*distance);
    }
    held
}

// The split sums, and the counts, which are the split sums of the matrix that has 1 for each measured pair and 0 for each missing one.
pub fn fresh(n: u32, distances: &[u16], parents: &[u8]) -> Kept
    requires { Posted n distances.now parents.now }
    ensures { Beside n distances.now parents.now result.sums result.counts }
{
    let strains = n as usize;
    let pairs = distances.len();
    let masks = clusters::clusters(strains, parents);
    let sums = tables::split(strains, distances, parents, &masks);
    let held = ones_of(distances);
    let counts = tables::split(strains, &held[..pairs], parents, &masks);
    Kept { sums, counts }
}
