// Resolved trees fitted with no proposal: where every inner vertex has degree three, each length comes
// from averages of distances between subtrees, as a fraction in lowest terms with a denominator of its own.
#![tactic(auto)]

ghost use Rattle.std.specs.Prelude.{◌≡◌, length};
ghost use Rattle.verdict.specs.Answer.{answer_of, pass, test};
ghost use Rattle.tree_theory.specs.Chain.{parent_of};
ghost use Rattle.tree_theory.specs.Allowed.{Allowed};
ghost use Rattle.fit_theory.specs.Stands.{Shaped};
ghost use Rattle.direct_theory.specs.Tests.{degree_tests, direct_only, buffers_out, direct_tests};
ghost use Rattle.direct_fit.specs.Answers.{Resolves, DirectAnswer, LengthsAnswer};

use verdict::{Place, Reason, Refusal, Verdict};

// R and H of a resolved tree's fit.
#[derive(Clone, Copy)]
pub struct DirectFit {
    pub r: i64,
    pub h: i64,
}

// The lengths of a resolved tree in the three buffers, and their R and H. That they are a fit is what
// keeps R within 64 bits.
pub fn resolve(
    n: u32,
    distances: &[u16],
    parents: &[u8],
    numerators: &mut [i64],
    denominators: &mut [u32],
    rounded: &mut [i64],
) -> DirectFit
    requires shaped { Shaped n distances.now parents.now }
    requires parents_value { direct_only n distances.now parents.now ≡ pass }
    requires numerators_len { (length numerators.old ≡ length parents.now) × (length denominators.old ≡ length parents.now) × (length rounded.old ≡ length parents.now) }
    ensures { Resolves n distances.now parents.now numerators.new denominators.new rounded.new result }
{
    let strains = n as usize;
    let edges = parents.len();
    let masks = clusters::clusters(strains, parents);
    let sums = tables::split(strains, distances, parents, &masks);
    let children = neighbours::child_table(strains, parents);
    let worked = edge_lengths::fill(
        strains,
        parents,
        &masks,
        &children,
        &sums,
        numerators,
        denominators,
    );
    let squares = fit_numbers::sum_squares(strains, edges, distances, parents, &worked);
    tables::copy_out(edges, &worked, rounded);
    DirectFit {
        r: squares.r,
        h: squares.h,
    }
}

// 25: the first inner vertex that is not of degree three.
fn check_degrees(n: u32, parents: &[u8]) -> Verdict
    requires { Allowed n (length parents.now) (parent_of parents.now) }
    ensures { answer_of result ≡ degree_tests n parents.now }
{
    let w = tree::first_children_out(n as usize, parents, 0);
    if w <= parents.len() {
        return Err(Refusal {
            reason: Reason::Unresolved,
            place: Place::Vertex(w),
        });
    }
    Ok(())
}

// 25, then 26 for any pair that is missing.
pub fn check_resolved(n: u32, distances: &[u16], parents: &[u8]) -> Verdict
    requires { Shaped n distances.now parents.now }
    ensures { answer_of result ≡ direct_only n distances.now parents.now }
{
    check_degrees(n, parents)?;
    refusing::test(Reason::Unmeasured, matrix::some_missing(distances))
}

// 15: some of three buffers of a, b and c entries does not have one for each edge.
fn check_buffers(edges: usize, a: usize, b: usize, c: usize) -> Verdict
    ensures { answer_of result ≡ test 15 (buffers_out edges a b c) }
{
    refusing::test(Reason::Buffer, a != edges || b != edges || c != edges)
}

// What a matrix and a tree are asked before the fit, with buffers of a, b and c entries: 4, 6 to 10, 16, 25, 26, 15, the
// first that applies.
fn check_direct(n: u32, distances: &[u16], parents: &[u8], a: usize, b: usize, c: usize) -> Verdict
    ensures { answer_of result ≡ direct_tests n distances.now parents.now a b c }
{
    posting::check_shapes(n, distances, parents)?;
    check_resolved(n, distances, parents)?;
    check_buffers(parents.len(), a, b, c)
}

// The fit of a resolved tree beside a complete matrix: 4, 6 to 10, 16, 25, 26, 15, the first that applies; a refusal leaves
// the three buffers as they were.
pub fn fit_resolved(
    n: u32,
    distances: &[u16],
    parents: &[u8],
    numerators: &mut [i64],
    denominators: &mut [u32],
    rounded: &mut [i64],
) -> Result<DirectFit, Refusal>
    ensures { DirectAnswer n distances.now parents.now numerators.old numerators.new denominators.old denominators.new rounded.old rounded.new result }
{
    check_direct(
        n,
        distances,
        parents,
        numerators.len(),
        denominators.len(),
        rounded.len(),
    )?;
    Ok(resolve(n, distances, parents, numerators, denominators, rounded))
}

// The same as a number, 0 where the tree is fitted. The crate direct_fit_c exports it to C.
pub fn resolved_lengths(
    n: u32,
    distances: &[u16],
    parents: &[u8],
    numerators: &mut [i64],
    denominators: &mut [u32],
    rounded: &mut [i64],
) -> u32
    ensures { LengthsAnswer n distances.now parents.now numerators.old numerators.new denominators.old denominators.new rounded.old rounded.new result }
{
    let found = fit_resolved(n, distances, parents, numerators, denominators, rounded);
    verdict::number(&found)
}
