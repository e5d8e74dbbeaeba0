// For each edge of an allowed tree what a table has for the pairs that the edge parts, added up. No pair is missing: every number
// of the table is added as it stands. The steps are those of Bryant and Waddell (1998); the equation numbers at the steps are theirs.
#![tactic(auto)]

ghost use Rattle.std.specs.Prelude.{◌≡◌, ℕ, ◌+◌, ◌<◌, ◌≤◌, true, length, pos, slice_index, unsigned_abs};
ghost use Rattle.exact.specs.Table.{table, entry_of};
ghost use Rattle.matrix.specs.Limits.{max_strains, max_distance};
ghost use Rattle.matrix.specs.Place.{pair_count};
ghost use Rattle.tree_theory.specs.Limits.{max_edges};
ghost use Rattle.tree_theory.specs.Chain.{parent_of};
ghost use Rattle.tree_theory.specs.Cluster.{bit_at};
ghost use Rattle.tree_theory.specs.EdgeTable.{EdgeTable};
ghost use Rattle.meeting.specs.Meeting.{over};
ghost use Rattle.splits.specs.Sums.{entry_of_two, split_of, Splittable, max_row, RowAdded, Rows, Apart};

use tree::Tree;

// Adds the pairs of strain j with the strains before it to the rows of both. Their numbers stand one behind the other, from `first` on.
fn add_row(distances: &[u16], first: usize, j: usize, own: &mut [i64; Tree::MAX_EDGES])
    requires j_lt_max_strains { (j < max_strains) × (first ≡ pair_count j) × (first + j ≤ length distances.now) }
    requires by_index { (k : ℕ) → slice_index distances.now k ≤ max_distance }
    requires own_len { (length own.old ≡ max_edges) × ((w : ℕ) → unsigned_abs (entry_of own.old w) ≤ max_row) }
    ensures { RowAdded distances.now j own.old own.new }
{
    let mut whole: i64 = 0;
    for i in 0..j {
        let far = distances[first + i] as i64;
        own[i] = own[i] + far;
        whole = whole + far;
    }
    own[j] = own[j] + whole;
}

// Puts the row sum of every strain into zeros, which the other vertices keep.
fn totals(n: usize, distances: &[u16], own: &mut [i64; Tree::MAX_EDGES])
    requires n_le_max_strains { (n ≤ max_strains) × (pair_count n ≤ length distances.now) }
    requires by_index { (k : ℕ) → slice_index distances.now k ≤ max_distance }
    requires own_value { own.old ≡ table max_edges (λ _. pos 0) }
    ensures { Rows n distances.now own.new }
{
    let mut first = 0;
    for j in 0..n {
        add_row(distances, first, j, own);
        first += j;
    }
}

// What the table has between strain j and the strains of a mask, which are all before j: their places follow each other.
fn before(distances: &[u16], others: u64, j: usize) -> i64
    requires j_lt_max_strains { j < max_strains }
    requires by_index { (i : ℕ) → bit_at others i ≡ true → i < j }
    requires apart { Apart distances.now others j }
    requires by_index_2 { (k : ℕ) → slice_index distances.now k ≤ max_distance }
    ensures { result ≡ over others (λ i. entry_of_two distances.now i j) }
{
    let mut sum = 0;
    let mut left = others;
    // A mask is walked by its lowest bit; no index is counted.
    while left != 0 {
        let low = meeting::lowest_strain(left);
        let at = matrix::place(low.strain, j);
        sum = sum + distances[at] as i64;
        left = low.rest;
    }
    sum
}

// The same for strains that are all behind j.
fn behind(distances: &[u16], others: u64, j: usize) -> i64
    requires by_index { (i : ℕ) → bit_at others i ≡ true → j ≤ i }
    requires apart { Apart distances.now others j }
    requires by_index_2 { (k : ℕ) → slice_index distances.now k ≤ max_distance }
    ensures { result ≡ over others (λ i. entry_of_two distances.now i j) }
{
    let mut sum = 0;
    let mut left = others;
    // A mask is walked by its lowest bit; no index is counted.
    while left != 0 {
        let low = meeting::lowest_strain(left);
        let at = matrix::place(j, low.strain);
        sum = sum + distances[at] as i64;
        left = low.rest;
    }
    sum
}

// What the table has between strain j and the strains of a mask, of which j is none.
fn between(distances: &[u16], others: u64, j: usize) -> i64
    requires j_lt_max_strains { j < max_strains }
    requires apart { Apart distances.now others j }
    requires by_index { (k : ℕ) → slice_index distances.now k ≤ max_distance }
    ensures { result ≡ over others (λ i. entry_of_two distances.now i j) }
{
    let lower = others & ((1u64 << j) - 1);
    before(distances, lower, j) + behind(distances, others - lower, j)
}

// What it has between the strains of two masks that share none, a row for each strain of the first.
fn rows_between(distances: &[u16], each: u64, others: u64) -> i64
    requires by_index { (j : ℕ) → bit_at each j ≡ true → Apart distances.now others j }
    requires by_index_2 { (k : ℕ) → slice_index distances.now k ≤ max_distance }
    ensures { result ≡ over each (λ j. over others (λ i. entry_of_two distances.now i j)) }
{
    let mut sum = 0;
    let mut left = each;
    // A mask is walked by its lowest bit; no index is counted.
    while left != 0 {
        let low = meeting::lowest_strain(left);
        sum = sum + between(distances, others, low.strain);
        left = low.rest;
    }
    sum
}

// The same, by the mask that takes fewer rows where `there` has at most one strain.
fn crossed(distances: &[u16], here: u64, there: u64) -> i64
    requires by_index { (j : ℕ) → bit_at here j ≡ true → Apart distances.now there j }
    requires by_index_2 { (k : ℕ) → slice_index distances.now k ≤ max_distance }
    ensures { result ≡ over here (λ j. over there (λ i. entry_of_two distances.now i j)) }
{
    let mut each = here;
    let mut others = there;
    if there & std::num::wrapping_sub_u64(there, 1) == 0 {
        each = there;
        others = here;
    }
    rows_between(distances, each, others)
}

// Puts into zeros, for each edge, what the table has for the pairs that it parts, added up. One pass from the leaves up: at its turn a
// vertex has all the strains below it, and its edge's sum, which stays, since a parent is greater. An outer edge has its strain's row
// sum (equation 9); an inner edge has its children's sums together, less twice what is between different children's clusters
// (equation 14, and 10 for two children).
pub fn splits(
    n: usize,
    edges: usize,
    distances: &[u16],
    parents: &[u8],
    sums: &mut [i64; Tree::MAX_EDGES],
)
    requires splittable { Splittable n edges distances.now parents.now }
    requires sums_value { sums.old ≡ table max_edges (λ _. pos 0) }
    ensures { EdgeTable edges (split_of n distances.now (parent_of parents.now)) sums.new }
{
    totals(n, distances, sums);
    let mut come = clusters::own_bits(n);
    for v in 0..edges {
        let here = come[v];
        let m = parents[v] as usize;
        let there = come[m];
        come[m] = there | here;
        // the root has no edge, so nothing is crossed there
        if m < edges {
            // the strains that come up meet those that came from m's other children
            let met = crossed(distances, here, there);
            sums[m] = sums[m] + sums[v] - met - met;
        }
    }
}
