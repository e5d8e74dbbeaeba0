// The verdict on proposed lengths, over lent slices: accepted exactly where counts and ranges pass, the tree is allowed
// and for every edge the remainders over the pairs that it parts add to zero; under the rule for drawn trees, no length is
// negative, a positive edge's remainders add to zero and a zero edge's to zero or less.
#![tactic(auto)]

ghost use Rattle.std.specs.Prelude.{◌≡◌, length};
ghost use Rattle.verdict.specs.Answer.{answer_of};
ghost use Rattle.lengths.specs.Proper.{Proper};
ghost use Rattle.fit_theory.specs.Stands.{Posted};
ghost use Rattle.fit_theory.specs.Tests.{sums_tests, proposal_tests};
ghost use Rattle.judging.specs.Answers.{JudgeAnswer};

use verdict::{Rule, Verdict};

// 14, 23: for some edge the remainders over the pairs that it parts do not add to what the rule asks. Where no pair is missing the sums come
// edge by edge from split sums and path sums, else pair by pair.
fn check_sums(
    rule: Rule,
    n: usize,
    distances: &[u16],
    parents: &[u8],
    d: u32,
    numerators: &[i64],
) -> Verdict
    requires posted { Posted n distances.now parents.now }
    requires proper { Proper (length parents.now) d numerators.now }
    ensures { answer_of result ≡ sums_tests rule n distances.now parents.now d numerators.now }
{
    let edges = parents.len();
    if matrix::some_missing(distances) {
        let masks = clusters::clusters(n, parents);
        let sums = edge_sums::edge_sums(n, edges, d, distances, parents, &masks, numerators);
        return balancing::balance(rule, edges, &sums, numerators);
    }
    let mut sums: [i64; tree::Tree::MAX_EDGES] = arrays::filled(0);
    edge_numbers::remainders(n, edges, d, distances, parents, numerators, &mut sums);
    balancing::balance(rule, edges, &sums, numerators)
}

// What lengths are asked beside a matrix and a tree that pass: 11 to 13, 22, 14, 23, the first that applies.
pub fn judge_proposal(
    rule: Rule,
    n: u32,
    distances: &[u16],
    parents: &[u8],
    d: u32,
    numerators: &[i64],
) -> Verdict
    requires { Posted n distances.now parents.now }
    ensures { answer_of result ≡ proposal_tests rule n distances.now parents.now d numerators.now }
{
    lengths::check_lengths(parents.len(), d, numerators)?;
    lengths::check_signs(rule, numerators)?;
    check_sums(rule, n as usize, distances, parents, d, numerators)
}

// The verdict: 4, 6 to 14, 16, 22, 23, 26, the first that applies.
pub fn judge(
    rule: Rule,
    n: u32,
    distances: &[u16],
    parents: &[u8],
    d: u32,
    numerators: &[i64],
) -> Verdict
    ensures { JudgeAnswer rule n distances.now parents.now d numerators.now result }
{
    posting::check_posting(n, distances, parents)?;
    judge_proposal(rule, n, distances, parents, d, numerators)
}
