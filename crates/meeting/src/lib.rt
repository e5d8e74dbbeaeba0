// Where strains meet: the ways of strains up the tree, the remainders of the pairs that meet at a vertex, and what each gives to
// the shares of the vertices. The steps are those of Bryant and Waddell (1998, algorithm FASTMTM); the equation numbers
// at the steps are theirs.
#![tactic(auto)]

ghost use Rattle.std.specs.Prelude.{◌≡◌, ℕ, ◌+◌, ◌*◌, ◌^◌, ◌<◌, ◌≤◌, true, ◌≢◌, length, ℤ, pos, ◌+ℤ◌, count_ones, unsigned_abs};
ghost use Rattle.exact.specs.Table.{table, entry_of};
ghost use Rattle.matrix.specs.Limits.{max_strains};
ghost use Rattle.tree_theory.specs.Limits.{max_vertices};
ghost use Rattle.tree_theory.specs.Cluster.{bit_at};
ghost use Rattle.lengths.specs.Limits.{max_numerator};
ghost use Rattle.meeting.specs.Shares.{Put, Given, mass};
ghost use Rattle.meeting.specs.Meeting.{farthest_way, pair_mass, LowestStrain, Carried, Carrying, Apart, Rowed, Met, remainder_by_ways};

use matrix::Matrix;
use tree::Tree;

// Adds x to the share of vertex k.
pub fn put(own: &mut [i64; Tree::MAX_VERTICES], k: usize, x: i64)
    requires own_len { (length own.old ≡ max_vertices) × (k < max_vertices) }
    requires x_bound { unsigned_abs (entry_of own.old k +ℤ x) < 2 ^ 63 }
    requires k_bound { unsigned_abs (entry_of own.old k) < 2 ^ 63 }
    ensures { Put k x own.old own.new }
{
    own[k] = own[k] + x;
}

// Puts r, the remainders of strain j with those that it meets at m, at j, and takes it off twice at m.
fn give(own: &mut [i64; Tree::MAX_VERTICES], j: usize, m: usize, r: i64)
    requires own_len { (length own.old ≡ max_vertices) × (j < max_vertices) × (m < max_vertices) }
    requires r_bound { mass max_vertices own.old + 3 * unsigned_abs r < 2 ^ 63 }
    ensures { Given j m r own.old own.new }
{
    // equation 9: r is of j's row
    put(own, j, r);
    // equations 10 and 14: what is between different children's clusters, twice
    put(own, m, 0 - r - r);
}

// A strain of a mask, and the mask without it.
#[derive(Clone, Copy)]
pub struct Low {
    pub strain: usize,
    pub rest: u64,
}

// The lowest strain of a mask that has one.
pub fn lowest_strain(mask: u64) -> Low
    requires { mask ≢ 0 }
    ensures { LowestStrain mask result }
{
    Low {
        strain: u64::trailing_zeros(mask) as usize,
        rest: mask & (mask - 1),
    }
}

// Carries the strains of a mask over an edge: their ways are longer by x.
pub fn carry(ways: &mut [i64; Matrix::MAX_STRAINS], here: u64, x: i64)
    requires ways_len { length ways.old ≡ max_strains }
    requires by_index { (i : ℕ) → unsigned_abs (entry_of ways.old i) ≤ farthest_way }
    requires x_bound { unsigned_abs x ≤ max_numerator }
    ensures { Carried here x ways.old ways.new }
{
    let mut left = here;
    // A mask is walked by its lowest bit; no index is counted.
    while left != 0 {
        let low = lowest_strain(left);
        let i = low.strain;
        ways[i] = ways[i] + x;
        left = low.rest;
    }
}

// The remainder of a measured pair whose strains have come to where its path turns: d times its distance, less their two
// ways; 0 for a pair that is missing.
fn remainder_by_ways(
    n: usize,
    d: u32,
    distances: &[u16],
    ways: &[i64; Matrix::MAX_STRAINS],
    i: usize,
    j: usize,
) -> i64
    requires carrying { Carrying n d distances.now ways.now }
    requires i_lt_n { (i < n) × (j < n) × (i ≢ j) }
    ensures { result ≡ remainder_by_ways d distances.now ways.now i j }
{
    let far = distances[matrix::pair_place(i, j)];
    if far == Matrix::MISSING {
        return 0;
    }
    d as i64 * far as i64 - ways[i] - ways[j]
}

// The remainders of strain j with each strain of a mask, each put at that strain; and all of them together.
fn row(
    n: usize,
    d: u32,
    distances: &[u16],
    ways: &[i64; Matrix::MAX_STRAINS],
    there: u64,
    j: usize,
    own: &mut [i64; Tree::MAX_VERTICES],
) -> i64
    requires carrying { Carrying n d distances.now ways.now }
    requires apart { Apart n d distances.now ways.now there j }
    requires own_len { (length own.old ≡ max_vertices) × (mass max_vertices own.old + pair_mass * count_ones there < 2 ^ 63) }
    ensures { Rowed d distances.now ways.now there j result own.old own.new }
{
    let mut whole = 0;
    let mut left = there;
    // A mask is walked by its lowest bit; no index is counted.
    while left != 0 {
        let low = lowest_strain(left);
        let i = low.strain;
        let r = remainder_by_ways(n, d, distances, ways, i, j);
        // equation 9: r is of i's row too
        put(own, i, r);
        whole = whole + r;
        left = low.rest;
    }
    whole
}

// The strains of one mask meet those of another at m, a row for each strain of the first.
fn join(
    n: usize,
    d: u32,
    distances: &[u16],
    ways: &[i64; Matrix::MAX_STRAINS],
    here: u64,
    there: u64,
    m: usize,
    own: &mut [i64; Tree::MAX_VERTICES],
)
    requires carrying { Carrying n d distances.now ways.now }
    requires by_index { (j : ℕ) → bit_at here j ≡ true → Apart n d distances.now ways.now there j }
    requires own_len { (length own.old ≡ max_vertices) × (m < max_vertices) }
    requires there_bound { mass max_vertices own.old + pair_mass * (count_ones here * count_ones there) < 2 ^ 63 }
    ensures { Met d distances.now ways.now here there m own.old own.new }
{
    let mut left = here;
    // A mask is walked by its lowest bit; no index is counted.
    while left != 0 {
        let low = lowest_strain(left);
        let j = low.strain;
        let r = row(n, d, distances, ways, there, j, own);
        give(own, j, m, r);
        left = low.rest;
    }
}

// The strains that come up an edge meet those that stand at its upper end m already, which came from
// m's other children.
pub fn meet(
    n: usize,
    d: u32,
    distances: &[u16],
    ways: &[i64; Matrix::MAX_STRAINS],
    here: u64,
    there: u64,
    m: usize,
    own: &mut [i64; Tree::MAX_VERTICES],
)
    requires carrying { Carrying n d distances.now ways.now }
    requires by_index { (j : ℕ) → bit_at here j ≡ true → Apart n d distances.now ways.now there j }
    requires own_len { (length own.old ≡ max_vertices) × (m < max_vertices) }
    requires there_bound { mass max_vertices own.old + pair_mass * (count_ones here * count_ones there) < 2 ^ 63 }
    ensures { Met d distances.now ways.now here there m own.old own.new }
{
    // where at most one strain stands there, one row over those that come
    let mut each = here;
    let mut others = there;
    if there & std::num::wrapping_sub_u64(there, 1) == 0 {
        each = there;
        others = here;
    }
    join(n, d, distances, ways, each, others, m, own);
}
