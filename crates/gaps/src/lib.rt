// Pairs that were not measured: with whom each strain is measured, as masks, and the first edge that parts no measured pair.
#![tactic(auto)]

ghost use Rattle.std.specs.Prelude.{◌≡◌, cond, suc, ◌^◌, ◌≤◌, ◌<◌, ltb, length, get_or};
ghost use Rattle.exact.specs.Table.{table};
ghost use Rattle.verdict.specs.Table.{some, first};
ghost use Rattle.matrix.specs.Limits.{max_strains};
ghost use Rattle.matrix.specs.Place.{pair_count, is_measured};
ghost use Rattle.fit_theory.specs.Stands.{Shaped};
ghost use Rattle.fit_theory.specs.Tests.{unseen};
ghost use Rattle.gaps.specs.Columns.{column_of, parts_column};

use matrix::Matrix;

// Bit i, where the distance was measured.
fn bit_of(far: u16, i: usize) -> u64
    requires { i < max_strains }
    ensures { result ≡ cond (is_measured far) (2 ^ i) 0 }
{
    if far == Matrix::MISSING {
        return 0;
    }
    1u64 << i
}

// The strains before j with which j is measured.
fn column(distances: &[u16], j: usize) -> u64
    requires { (j < max_strains) × (pair_count (suc j) ≤ length distances.now) }
    ensures { result ≡ column_of distances.now j }
{
    let mut mask = 0;
    for i in 0..j {
        mask += bit_of(distances[matrix::place(i, j)], i);
    }
    mask
}

// That of each strain.
fn columns(n: usize, distances: &[u16]) -> [u64; Matrix::MAX_STRAINS]
    requires { (n ≤ max_strains) × (pair_count n ≤ length distances.now) }
    ensures { result ≡ table max_strains (λ j. cond (ltb j n) (column_of distances.now j) 0) }
{
    let mut masks: [u64; Matrix::MAX_STRAINS] = arrays::filled(0);
    for k in 0..n {
        masks[k] = column(distances, k);
    }
    masks
}

// Whether a cluster has j and not all of a mask, or not j and some of the mask.
fn parts_column(cluster: u64, j: usize, mask: u64) -> bool
    requires { j < max_strains }
    ensures { result ≡ parts_column cluster j mask }
{
    let common = mask & cluster;
    if (cluster >> j) % 2 == 1 {
        return common != mask;
    }
    common != 0
}

// Whether a cluster parts a measured pair of n strains.
fn parts_some(n: usize, cluster: u64, masks: &[u64; Matrix::MAX_STRAINS]) -> bool
    requires { n ≤ max_strains }
    ensures { result ≡ some n (λ j. parts_column cluster j (get_or masks.now j 0)) }
{
    for j in 0..n {
        if parts_column(cluster, j, masks[j]) {
            return true;
        }
    }
    false
}

// The first edge that parts no measured pair, or as many as there are edges.
pub fn first_unseen(n: usize, distances: &[u16], parents: &[u8]) -> usize
    requires { Shaped n distances.now parents.now }
    ensures { result ≡ first (length parents.now) (unseen n distances.now parents.now) }
{
    let clusters = clusters::clusters(n, parents);
    let masks = columns(n, distances);
    for v in 0..parents.len() {
        if !parts_some(n, clusters[v], &masks) {
            return v;
        }
    }
    parents.len()
}
