// One distance corrected, over lent tables: the matrix, and beside it the split sums and the counts of measured pairs, which move with it
// at the edges that part the pair and nowhere else.
#![tactic(auto)]

ghost use Rattle.std.specs.Prelude.{◌≡◌, ◌≤◌, eqb, pos, nat_abs, ◌-ℤ◌, length};
ghost use Rattle.exact.specs.Sum.{ind};
ghost use Rattle.exact.specs.Table.{entry_of};
ghost use Rattle.verdict.specs.Answer.{answer_of};
ghost use Rattle.verdict.specs.Table.{first};
ghost use Rattle.matrix.specs.Place.{is_measured, known};
ghost use Rattle.tree_theory.specs.Limits.{max_edges};
ghost use Rattle.tree_theory.specs.EdgeTable.{EdgeTable};
ghost use Rattle.fit_theory.specs.Stands.{Posted};
ghost use Rattle.correction_theory.specs.Correction.{Correction, pair_tests, correction_tests};
ghost use Rattle.correction_theory.specs.Kept.{Beside, split_count};
ghost use Rattle.correcting.specs.Answers.{CorrectAnswer};

use matrix::Matrix;
use tree::Tree;
use verdict::{Place, Reason, Refusal, Verdict};

// What a pair adds to a count: 1 where it is measured, 0 where it is missing.
fn count_of(far: u16) -> i64
    ensures { result ≡ ind (is_measured far) }
{
    if far == Matrix::MISSING {
        return 0;
    }
    1
}

// What a pair adds to a split sum: its distance, 0 where it is missing.
fn distance_of(far: u16) -> i64
    ensures { result ≡ pos (known far) }
{
    if far == Matrix::MISSING {
        return 0;
    }
    far as i64
}

// By how much a correction moves the count of an edge that parts its pair.
fn count_change(old: u16, far: u16) -> i64
    ensures { result ≡ ind (is_measured far) -ℤ ind (is_measured old) }
{
    count_of(far) - count_of(old)
}

// By how much it moves the split sum of such an edge.
fn sum_change(old: u16, far: u16) -> i64
    ensures { result ≡ pos (known far) -ℤ pos (known old) }
{
    distance_of(far) - distance_of(old)
}

// The first edge that is left with no measured pair, or as many as there are edges.
fn first_emptied(edges: usize, counts: &[i64; Tree::MAX_EDGES]) -> usize
    requires { edges ≤ max_edges }
    ensures { result ≡ first edges (λ v. eqb (nat_abs (entry_of counts.now v)) 0) }
{
    for v in 0..edges {
        if counts[v] == 0 {
            return v;
        }
    }
    edges
}

// What a correction is asked by itself: 24 for the two strains, then 7 for the distance.
fn check_pair(n: u32, i: u32, j: u32, far: u16) -> Verdict
    ensures { answer_of result ≡ pair_tests n (record { i = i; j = j; far = far }) }
{
    if i == j {
        return Err(Refusal {
            reason: Reason::Pair,
            place: Place::Nowhere,
        });
    }
    if n <= i {
        return Err(Refusal {
            reason: Reason::Pair,
            place: Place::Nowhere,
        });
    }
    if n <= j {
        return Err(Refusal {
            reason: Reason::Pair,
            place: Place::Nowhere,
        });
    }
    if far == Matrix::MISSING {
        return Ok(());
    }
    if far > Matrix::MAX_DISTANCE {
        return Err(Refusal {
            reason: Reason::Distance,
            place: Place::Nowhere,
        });
    }
    Ok(())
}

// 24, 7, then 26, read off the counts as they would be: a copy is moved, so that a refusal has nothing to undo.
fn check_correction(
    n: u32,
    distances: &[u16],
    parents: &[u8],
    counts: &[i64; Tree::MAX_EDGES],
    i: u32,
    j: u32,
    far: u16,
) -> Verdict
    requires posted { Posted n distances.now parents.now }
    requires edge_table { EdgeTable (length parents.now) (split_count n distances.now parents.now) counts.now }
    ensures { answer_of result ≡ correction_tests n distances.now parents.now (record { i = i; j = j; far = far }) }
{
    check_pair(n, i, j, far)?;
    let a = i as usize;
    let b = j as usize;
    let old = distances[matrix::pair_place(a, b)];
    let change = count_change(old, far);
    let mut after = *counts;
    moving::move_between(parents.len(), parents, a, b, change, &mut after);
    let edge = first_emptied(parents.len(), &after);
    if edge < parents.len() {
        return Err(Refusal {
            reason: Reason::Unmeasured,
            place: Place::Edge(edge),
        });
    }
    Ok(())
}

// The correction of the pair i j, named in either order, to a distance or to the mark: 24, 7, 26, the first that applies; a refusal
// changes nothing.
pub fn correct(
    n: u32,
    distances: &mut [u16],
    parents: &[u8],
    sums: &mut [i64; Tree::MAX_EDGES],
    counts: &mut [i64; Tree::MAX_EDGES],
    i: u32,
    j: u32,
    far: u16,
) -> Verdict
    requires { Beside n distances.old parents.now sums.old counts.old }
    ensures { CorrectAnswer n parents.now (record { i = i; j = j; far = far }) distances.old distances.new sums.new counts.new result }
{
    check_correction(n, distances, parents, counts, i, j, far)?;
    let a = i as usize;
    let b = j as usize;
    let at = matrix::pair_place(a, b);
    let old = distances[at];
    distances[at] = far;
    let of_sums = sum_change(old, far);
    moving::move_between(parents.len(), parents, a, b, of_sums, sums);
    let of_counts = count_change(old, far);
    moving::move_between(parents.len(), parents, a, b, of_counts, counts);
    Ok(())
}
