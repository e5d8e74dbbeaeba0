// For each edge the sum of the remainders of the pairs that it parts: what the verdict asks for. It is made by the steps of Bryant
// and Waddell (1998, algorithm FASTMTM); the equation numbers at the steps are theirs.
#![tactic(auto)]

ghost use Rattle.std.specs.Prelude.{◌≡◌, ℕ, ◌<◌, ◌^◌, pos, length};
ghost use Rattle.exact.specs.Sum.{pairs};
ghost use Rattle.exact.specs.Table.{table};
ghost use Rattle.tree_theory.specs.Limits.{max_edges, max_vertices};
ghost use Rattle.tree_theory.specs.Chain.{parent_of};
ghost use Rattle.pairs.specs.Ready.{Ready, InRange};
ghost use Rattle.meeting.specs.Shares.{under, mass};
ghost use Rattle.edge_sums.specs.Sums.{share, HandedUp, EdgeSums};
ghost use Rattle.edge_sums.specs.Rooted.{Rooted};

use tree::Tree;

// One pass from the leaves up. At its turn an edge carries the strains below it to its parent, where
// they meet those that came before: every pair once, where its path turns. Then the shares below an
// edge come to the remainders of the pairs that it parts.
fn shares(
    n: usize,
    edges: usize,
    d: u32,
    distances: &[u16],
    parents: &[u8],
    masks: &[u64; Tree::MAX_VERTICES],
    numerators: &[i64],
) -> [i64; Tree::MAX_VERTICES]
    requires ready { Ready n edges d distances.now parents.now masks.now numerators.now }
    requires in_range { InRange edges numerators.now }
    ensures result_len { (length result ≡ max_vertices) × (mass max_vertices result < 2 ^ 63) }
    ensures by_index { (v : ℕ) → v < edges → under (parent_of parents.now) result v ≡ pairs n (share edges d distances.now parents.now numerators.now v) }
{
    let mut own: [i64; Tree::MAX_VERTICES] = arrays::filled(0);
    let mut ways: [i64; matrix::Matrix::MAX_STRAINS] = arrays::filled(0);
    let mut come = clusters::own_bits(n);
    for v in 0..edges {
        let here = masks[v];
        let m = parents[v] as usize;
        let there = come[m];
        meeting::carry(&mut ways, here, numerators[v]);
        meeting::meet(n, d, distances, &ways, here, there, m, &mut own);
        come[m] = there | here;
    }
    own
}

// Hands the shares up: each vertex has all that is below it when its turn comes. An outer edge has its
// strain's row (equation 9); an inner edge what its children's edges have, less twice what met at its
// lower end (equation 14, and 10 where there are two children).
fn handed_up(
    edges: usize,
    parents: &[u8],
    own: &mut [i64; Tree::MAX_VERTICES],
) -> [i64; Tree::MAX_EDGES]
    requires rooted { Rooted edges parents.now }
    requires own_len { (length own.old ≡ max_vertices) × (mass max_vertices own.old < 2 ^ 63) }
    ensures { HandedUp edges parents.now own.old result }
{
    let mut sums: [i64; Tree::MAX_EDGES] = arrays::filled(0);
    for v in 0..edges {
        let whole = own[v];
        sums[v] = whole;
        meeting::put(own, parents[v] as usize, whole);
    }
    sums
}

// For each edge the remainders added over the pairs that it parts, then zeros: the rows of the strains, and what
// meets at each vertex (`shares`), then edge by edge from the leaves up (`handed_up`). Each pair is
// touched once, so the whole is quadratic in n.
pub fn edge_sums(
    n: usize,
    edges: usize,
    d: u32,
    distances: &[u16],
    parents: &[u8],
    masks: &[u64; Tree::MAX_VERTICES],
    numerators: &[i64],
) -> [i64; Tree::MAX_EDGES]
    requires ready { Ready n edges d distances.now parents.now masks.now numerators.now }
    requires in_range { InRange edges numerators.now }
    ensures { EdgeSums n edges d distances.now parents.now numerators.now result }
{
    let mut own = shares(n, edges, d, distances, parents, masks, numerators);
    handed_up(edges, parents, &mut own)
}
