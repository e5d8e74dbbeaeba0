// What the house does (RULES, Two benches): it posts a matrix and a tree, or corrects one distance of what is posted. Either takes both
// tables down where it passes: they were fitted to what was posted before.
#![tactic(auto)]

ghost use Rattle.fit_theory.specs.Stands.{Posted};
ghost use Rattle.desk_theory.specs.Desk.{post, correct};
ghost use Rattle.desk.specs.Held.{PostingHeld, Held, Steps};
ghost use Rattle.desk_posting.specs.Postings.{Keeps, Corrects};

use desk::{Desk, Posting};
use verdict::{Place, Reason, Refusal};

// A matrix and a tree that pass, as a desk holds them: with their split sums and counts worked afresh.
fn kept(n: u32, distances: &[u16], parents: &[u8]) -> Posting
    requires { Posted n distances.now parents.now }
    ensures { Keeps n distances.now parents.now result }
{
    let beside = keeping::fresh(n, distances, parents);
    let sums = beside.sums;
    let counts = beside.counts;
    Posting {
        n,
        pairs: distances.len(),
        edges: parents.len(),
        distances: matrix::copied(distances),
        parents: tree::copied(parents),
        sums,
        counts,
    }
}

// The house posts, whatever the desk holds: 4, 6 to 10, 16, 26, the first that applies.
pub fn post(n: u32, distances: &[u16], parents: &[u8]) -> Result<Desk, Refusal>
    ensures { (desk : Desk) → Held desk → Steps desk (post n distances.now parents.now) result }
{
    posting::check_posting(n, distances, parents)?;
    Ok(desk::anew(kept(n, distances, parents)))
}

// The posting after a correction: 24, 7, 26, the first that applies; the sums and the counts move with the matrix.
fn after_correction(posting: Posting, i: u32, j: u32, far: u16) -> Result<Posting, Refusal>
    requires { PostingHeld posting }
    ensures { Corrects posting i j far result }
{
    let mut next = posting;
    let mut distances = posting.distances;
    let parents = posting.parents;
    let mut sums = posting.sums;
    let mut counts = posting.counts;
    correcting::correct(
        posting.n,
        &mut distances[..posting.pairs],
        &parents[..posting.edges],
        &mut sums,
        &mut counts,
        i,
        j,
        far,
    )?;
    next.distances = distances;
    next.sums = sums;
    next.counts = counts;
    Ok(next)
}

// One distance corrected: 21, 24, 7, 26, the first that applies.
pub fn correct(desk: Desk, i: u32, j: u32, far: u16) -> Result<Desk, Refusal>
    requires { Held desk }
    ensures { Steps desk (correct (record { i = i; j = j; far = far })) result }
{
    let posted = desk.posted.ok_or(Refusal {
        reason: Reason::Nothing,
        place: Place::Nowhere,
    })?;
    let next = after_correction(posted.posting, i, j, far)?;
    Ok(desk::anew(next))
}
