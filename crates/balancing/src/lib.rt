// What the sums of remainders of a tree's edges are asked under each rule. By the plain one every sum is zero; where no length
// may be negative a positive edge's is zero, and a zero edge's zero or less.
#![tactic(auto)]

ghost use Rattle.std.specs.Prelude.{◌≡◌, ◌≤◌, length};
ghost use Rattle.exact.specs.Table.{entry_of};
ghost use Rattle.verdict.specs.Answer.{answer_of, reason_number};
ghost use Rattle.tree_theory.specs.Limits.{max_edges};
ghost use Rattle.fit_theory.specs.Tests.{balance_tests};
ghost use Rattle.balancing.specs.Passes.{fault_by, number_by, pass_tests};

use tree::Tree;
use verdict::{Place, Reason, Refusal, Rule, Verdict};

// The edges that a pass over the sums is about: all, the positive ones, or those of length zero.
#[derive(Clone, Copy)]
enum Pass {
    All,
    Positive,
    Zero,
}

// Whether a pass finds an edge at fault: where its sum is not zero, and in the pass over zero edges where it is above
// zero, so that a longer edge would fit better. An edge that the pass is not about has no fault.
fn at_fault(pass: Pass, numerator: i64, sum: i64) -> bool
    ensures { result ≡ fault_by pass numerator sum }
{
    match pass {
        Pass::All => sum != 0,
        Pass::Positive => if numerator > 0 { sum != 0 } else { false },
        Pass::Zero => if numerator == 0 { sum > 0 } else { false },
    }
}

// The reason of the refusal: 23 for a zero edge, else 14.
fn reason_of(pass: Pass) -> Reason
    ensures { reason_number result ≡ number_by pass }
{
    match pass {
        Pass::All => Reason::Remainders,
        Pass::Positive => Reason::Remainders,
        Pass::Zero => Reason::ZeroEdge,
    }
}

// 14, 23: the first edge that a pass finds at fault, with its sum.
fn pass_over(pass: Pass, edges: usize, sums: &[i64; Tree::MAX_EDGES], numerators: &[i64]) -> Verdict
    requires edges_le_max_edges { edges ≤ max_edges }
    requires edges_in_bounds { edges ≤ length numerators.now }
    ensures { answer_of result ≡ pass_tests pass edges (entry_of numerators.now) (entry_of sums.now) }
{
    for v in 0..edges {
        let sum = sums[v];
        if at_fault(pass, numerators[v], sum) {
            return Err(Refusal {
                reason: reason_of(pass),
                place: Place::EdgeSum(v, sum),
            });
        }
    }
    Ok(())
}

// What the edges' sums are asked under each rule.
pub fn balance(
    rule: Rule,
    edges: usize,
    sums: &[i64; Tree::MAX_EDGES],
    numerators: &[i64],
) -> Verdict
    requires edges_le_max_edges { edges ≤ max_edges }
    requires edges_in_bounds { edges ≤ length numerators.now }
    ensures { answer_of result ≡ balance_tests rule edges (entry_of numerators.now) (entry_of sums.now) }
{
    match rule {
        Rule::Plain => pass_over(Pass::All, edges, sums, numerators),
        Rule::Drawable => {
            let positive = pass_over(Pass::Positive, edges, sums, numerators);
            let zero = pass_over(Pass::Zero, edges, sums, numerators);
            verdict::or_else(positive, zero)
        }
    }
}
