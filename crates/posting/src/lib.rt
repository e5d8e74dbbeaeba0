// A matrix and a tree tested together, as they are posted: whatever needs both asks here first.
#![tactic(auto)]

ghost use Rattle.std.specs.Prelude.{◌≡◌};
ghost use Rattle.verdict.specs.Answer.{answer_of};
ghost use Rattle.fit_theory.specs.Stands.{Shaped};
ghost use Rattle.fit_theory.specs.Tests.{shape_tests, seen_tests, posted_tests};

use verdict::{Place, Reason, Refusal, Verdict};

// Each by itself: 4, 6 to 10, 16, the first that applies.
pub fn check_shapes(n: u32, distances: &[u16], parents: &[u8]) -> Verdict
    ensures { answer_of result ≡ shape_tests n distances.now parents.now }
{
    matrix::check_matrix(n, distances).and(tree::check_tree(n, parents))
}

// 26: the first edge that parts no measured pair.
fn check_seen(n: u32, distances: &[u16], parents: &[u8]) -> Verdict
    requires { Shaped n distances.now parents.now }
    ensures { answer_of result ≡ seen_tests n distances.now parents.now }
{
    let edge = gaps::first_unseen(n as usize, distances, parents);
    if edge < parents.len() {
        return Err(Refusal {
            reason: Reason::Unmeasured,
            place: Place::Edge(edge),
        });
    }
    Ok(())
}

// Both together: 4, 6 to 10, 16, 26, the first that applies. Where no pair is missing every edge parts a measured one, and
// none is looked at.
pub fn check_posting(n: u32, distances: &[u16], parents: &[u8]) -> Verdict
    ensures { answer_of result ≡ posted_tests n distances.now parents.now }
{
    let missing = matrix::survey_matrix(n, distances)?;
    tree::check_tree(n, parents)?;
    if missing {
        return check_seen(n, distances, parents);
    }
    Ok(())
}
