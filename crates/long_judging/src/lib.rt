// The verdict on lengths in digits, over lent slices: accepted exactly where counts and ranges pass, the tree is allowed and for every edge the
// remainders over the pairs that it parts add to what the rule asks, whatever the denominator's size.
#![tactic(auto)]

ghost use Rattle.std.specs.Prelude.{◌≡◌, length};
ghost use Rattle.verdict.specs.Answer.{answer_of};
ghost use Rattle.fit_theory.specs.Stands.{Posted};
ghost use Rattle.long_theory.specs.Long.{LongProper};
ghost use Rattle.long_theory.specs.Tests.{long_fit_tests, long_proposal_tests};
ghost use Rattle.long_judging.specs.Answers.{LongJudged};

use verdict::{Rule, Verdict};

// 22, 14, 23: what is asked once counts and ranges pass.
fn check_long_fit(
    rule: Rule,
    n: usize,
    distances: &[u16],
    parents: &[u8],
    d: &[u32],
    digits: &[i64],
) -> Verdict
    requires posted { Posted n distances.now parents.now }
    requires long_proper { LongProper (length parents.now) d.now digits.now }
    ensures { answer_of result ≡ long_fit_tests rule n distances.now parents.now d.now digits.now }
{
    let edges = parents.len();
    let tops = long_sums::long_tops(edges, d.len(), digits);
    lengths::check_signs(rule, &tops[..edges])?;
    let masks = clusters::clusters(n, parents);
    let sums = long_sums::long_sums(n, edges, d.len(), d, distances, parents, &masks, digits);
    balancing::balance(rule, edges, &sums, &tops[..edges])
}

// What lengths in digits are asked beside a matrix and a tree that pass: 11 to 13, 22, 14, 23, the first that applies. `d` has the digits of D, the highest
// first; `digits` as many levels of a digit for each edge.
pub fn judge_long_proposal(
    rule: Rule,
    n: u32,
    distances: &[u16],
    parents: &[u8],
    d: &[u32],
    digits: &[i64],
) -> Verdict
    requires { Posted n distances.now parents.now }
    ensures { answer_of result ≡ long_proposal_tests rule n distances.now parents.now d.now digits.now }
{
    long_lengths::check_long_lengths(parents.len(), d, digits)?;
    check_long_fit(rule, n as usize, distances, parents, d, digits)
}

// The verdict: 4, 6 to 14, 16, 22, 23, 26, the first that applies.
pub fn judge_long(
    rule: Rule,
    n: u32,
    distances: &[u16],
    parents: &[u8],
    d: &[u32],
    digits: &[i64],
) -> Verdict
    ensures { LongJudged rule n distances.now parents.now d.now digits.now result }
{
    posting::check_posting(n, distances, parents)?;
    judge_long_proposal(rule, n, distances, parents, d, digits)
}
