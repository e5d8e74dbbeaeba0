// Tables over lent slices: the split sum of each edge, and the path of each pair. Both answer for any input; a refusal
// leaves the lent buffer as it was.
#![tactic(auto)]

ghost use Rattle.std.specs.Prelude.{◌≡◌, ℕ, ◌≤◌, ◌<◌, length};
ghost use Rattle.exact.specs.Table.{table, entry_of};
ghost use Rattle.exact.specs.LeastSquares.{path};
ghost use Rattle.matrix.specs.Place.{pair_count, row_place};
ghost use Rattle.tree_theory.specs.Limits.{max_edges};
ghost use Rattle.tree_theory.specs.Chain.{parent_of, parts_pair};
ghost use Rattle.fit_theory.specs.Stands.{Posted};
ghost use Rattle.paths.specs.Standing.{Standing};
ghost use Rattle.inner_paths.specs.Between.{Lengthened};
ghost use Rattle.tables.specs.Answers.{SplitTable, SplitAnswer, PathsAnswer};

use tree::Tree;
use verdict::{Place, Reason, Refusal, Verdict};

// The split sum of each edge, then zeros, by the steps of Bryant and Waddell (1998; RULES, Split sums by cases): an outer edge has its
// strain's row sum (equation 9); an inner edge has its children's split sums together, less twice the distances between
// different children's clusters (equation 14, and 10 for two children). Where a pair is missing they are those of `edge_sums`: over a
// denominator of 1 and no lengths a remainder is the distance itself.
pub fn split(
    n: usize,
    distances: &[u16],
    parents: &[u8],
    masks: &[u64; Tree::MAX_VERTICES],
) -> [i64; Tree::MAX_EDGES]
    requires posted { Posted n distances.now parents.now }
    requires standing { Standing n (length parents.now) parents.now masks.now }
    ensures { SplitTable n distances.now parents.now result }
{
    if matrix::some_missing(distances) {
        let none: [i64; Tree::MAX_EDGES] = arrays::filled(0);
        return edge_sums::edge_sums(n, parents.len(), 1, distances, parents, masks, &none);
    }
    let mut sums: [i64; Tree::MAX_EDGES] = arrays::filled(0);
    splits::splits(n, parents.len(), distances, parents, &mut sums);
    sums
}

// The first `edges` entries of a table, into a buffer of that size.
pub fn copy_out(edges: usize, from: &[i64; Tree::MAX_EDGES], to: &mut [i64])
    requires { (edges ≤ max_edges) × (length to.old ≡ edges) }
    ensures { to.new ≡ table edges (entry_of from.now) }
{
    for v in 0..edges {
        to[v] = from[v];
    }
}

// Split sums (`split`): 4, 6 to 10, 16, 26, 15, the first that applies; a refusal leaves the buffer as it was.
pub fn split_sums(n: u32, distances: &[u16], parents: &[u8], sums: &mut [i64]) -> Verdict
    ensures { SplitAnswer n distances.now parents.now sums.old sums.new result }
{
    posting::check_posting(n, distances, parents)?;
    if sums.len() != parents.len() {
        return Err(Refusal {
            reason: Reason::Buffer,
            place: Place::Nowhere,
        });
    }
    let strains = n as usize;
    let masks = clusters::clusters(strains, parents);
    let worked = split(strains, distances, parents, &masks);
    copy_out(parents.len(), &worked, sums);
    Ok(())
}

// Each pair's path, at the pair's place.
fn fill_paths(n: usize, parents: &[u8], numerators: &[i64], paths: &mut [i64])
    requires lengthened { Lengthened n (length parents.now) parents.now numerators.now }
    requires paths_len { length paths.old ≡ pair_count n }
    ensures paths_len_unchanged { length paths.new ≡ length paths.old }
    ensures by_index { (i j : ℕ) → i < j → j < n → entry_of paths.new (row_place n i j) ≡ path (length parents.now) (parts_pair (parent_of parents.now)) (entry_of numerators.now) (i, j) }
{
    let edges = parents.len();
    let between = inner_paths::inner_paths(n, edges, parents, numerators);
    for j in 1..n {
        for i in 0..j {
            let at = matrix::row_place(n, i, j);
            paths[at] = inner_paths::path(n, edges, parents, numerators, &between, i, j);
        }
    }
}

// Path lengths: 6, 8 to 13, 16, 15, the first that applies; a refusal leaves the buffer as it was.
pub fn path_lengths(
    n: u32,
    parents: &[u8],
    d: u32,
    numerators: &[i64],
    paths: &mut [i64],
) -> Verdict
    ensures { PathsAnswer n parents.now d numerators.now paths.old paths.new result }
{
    tree::check_tree(n, parents)?;
    lengths::check_lengths(parents.len(), d, numerators)?;
    if paths.len() as u64 != matrix::pair_count(n) {
        return Err(Refusal {
            reason: Reason::Buffer,
            place: Place::Nowhere,
        });
    }
    fill_paths(n as usize, parents, numerators, paths);
    Ok(())
}
