// The matrix of distances: its limits, its tests, and where a pair of strains stands.
#![tactic(auto)]

ghost use Rattle.std.specs.Prelude.{◌≡◌, ◌≢◌, ◌+◌, ◌≤◌, ◌<◌, not, ◌&&◌, eqb, ltb, length, get_or};
ghost use Rattle.exact.specs.Table.{table};
ghost use Rattle.verdict.specs.Answer.{answer_of};
ghost use Rattle.matrix.specs.Limits.{min_strains, max_strains, max_distance, missing, max_pairs};
ghost use Rattle.matrix.specs.Place.{pair_count, place, pair_place, row_place, some_missing};
ghost use Rattle.matrix.specs.Tests.{matrix_tests};
ghost use Rattle.matrix.specs.Kept.{MatrixAnswer};
ghost use Rattle.matrix.specs.Surveys.{Looked, Surveyed};

use verdict::{Reason, Refusal, Verdict};

// The distances between n strains, in the order 01, 02, 12, 03, 13, 23, .., then zeros: a strain appends.
#[derive(Clone, Copy)]
pub struct Matrix {
    pub n: usize,
    pub distances: [u16; Matrix::MAX_PAIRS],
}

impl Matrix {
    pub const MIN_STRAINS: usize = 3;

    pub const MAX_STRAINS: usize = 64;

    pub const MAX_DISTANCE: u16 = 50_000;
    // What stands in place of a distance that was not measured.
    pub const MISSING: u16 = 65_535;
    // As many pairs as the most strains have.
    pub const MAX_PAIRS: usize = Matrix::MAX_STRAINS * (Matrix::MAX_STRAINS - 1) / 2;

    // The matrix, where the check accepts it.
    pub fn new(n: u32, distances: &[u16]) -> Result<Matrix, Refusal>
        ensures { MatrixAnswer n distances.now result }
    {
        check_matrix(n, distances)?;
        Ok(Matrix {
            n: n as usize,
            distances: copied(distances),
        })
    }
}

// The limits as the code has them; the contract says that the definitions have the same.
#[derive(Clone, Copy)]
pub struct Limits {
    pub fewest: usize,
    pub most: usize,
    pub farthest: u16,
    pub missing: u16,
    pub pairs: usize,
}

pub fn stated_limits() -> Limits
    ensures { (result.fewest ≡ min_strains) × (result.most ≡ max_strains) × (result.farthest ≡ max_distance) × (result.missing ≡ missing) × (result.pairs ≡ max_pairs) }
{
    Limits {
        fewest: Matrix::MIN_STRAINS,
        most: Matrix::MAX_STRAINS,
        farthest: Matrix::MAX_DISTANCE,
        missing: Matrix::MISSING,
        pairs: Matrix::MAX_PAIRS,
    }
}

// How many pairs n strains have. Exact for every n: the product of two u32 fits a u64.
pub fn pair_count(n: u32) -> u64
    ensures { result ≡ pair_count n }
{
    if n == 0 {
        return 0;
    }
    let strains = n as u64;
    strains * (strains - 1) / 2
}

// Where the pair i j stands in a matrix, of however many strains.
pub fn place(i: usize, j: usize) -> usize
    requires { (i < j) × (j < max_strains) }
    ensures { result ≡ place i j }
{
    j * (j - 1) / 2 + i
}

// Where the pair of two strains stands in a matrix, whichever is named first.
pub fn pair_place(i: usize, j: usize) -> usize
    requires { (i < max_strains) × (j < max_strains) × (i ≢ j) }
    ensures { result ≡ pair_place i j }
{
    if i < j {
        return place(i, j);
    }
    place(j, i)
}

// Where the pair i j of n strains stands in the rows of a sheet or of a path buffer.
pub fn row_place(n: usize, i: usize, j: usize) -> usize
    requires { (i < j) × (j < n) × (n ≤ max_strains) }
    ensures { result ≡ row_place n i j }
{
    i * (2 * n - i - 1) / 2 + (j - i - 1)
}

// Where i + 1 and j stand in the rows of n strains, by where i and j do.
pub fn row_below(n: usize, i: usize, j: usize, row: usize) -> usize
    requires { (i + 1 < j) × (j < n) × (n ≤ max_strains) × (row ≡ row_place n i j) }
    ensures { result ≡ row_place n (i + 1) j }
{
    row + (n - i - 2)
}

// Whether a distance is above its limit; the mark of a missing pair is none.
fn above(far: u16) -> bool
    ensures { result ≡ (ltb max_distance far && not (eqb far missing)) }
{
    far > Matrix::MAX_DISTANCE && far != Matrix::MISSING
}

// What a look at every distance shows: whether one is above its limit, and whether one is missing. No turn ends it, and its
// flags are gathered without a branch, so that it goes through several distances at once.
#[derive(Clone, Copy)]
struct Seen {
    out: bool,
    missing: bool,
}

fn look(distances: &[u16]) -> Seen
    ensures { Looked distances.now result.out result.missing }
{
    let mut out = false;
    let mut missing = false;
    for far in distances {
        missing |= *far == Matrix::MISSING;
        out |= above(*far);
    }
    Seen { out, missing }
}

// 4, 6, 7, the first that applies, for any n and any slice; of a matrix that passes, whether some pair is missing.
pub fn survey_matrix(n: u32, distances: &[u16]) -> Result<bool, Refusal>
    ensures { Surveyed n distances.now result }
{
    refusing::test(Reason::WrongCounts, distances.len() as u64 != pair_count(n))?;
    let strains = n as usize;
    refusing::test(
        Reason::Strains,
        strains < Matrix::MIN_STRAINS || Matrix::MAX_STRAINS < strains,
    )?;
    let found = look(distances);
    refusing::test(Reason::Distance, found.out)?;
    Ok(found.missing)
}

// Whether some pair is missing.
pub fn some_missing(distances: &[u16]) -> bool
    ensures { result ≡ some_missing distances.now }
{
    look(distances).missing
}

// The answer alone.
pub fn check_matrix(n: u32, distances: &[u16]) -> Verdict
    ensures { answer_of result ≡ matrix_tests n distances.now }
{
    survey_matrix(n, distances)?;
    Ok(())
}

// The distances, then zeros.
pub fn copied(distances: &[u16]) -> [u16; Matrix::MAX_PAIRS]
    requires { length distances.now ≤ max_pairs }
    ensures { result ≡ table max_pairs (λ k. get_or distances.now k 0) }
{
    arrays::padded(distances, 0)
}
