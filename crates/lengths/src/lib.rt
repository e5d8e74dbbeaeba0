// Proposed lengths: a denominator and a numerator for each edge, their limits and their tests.
#![tactic(auto)]

ghost use Rattle.std.specs.Prelude.{◌≡◌, ◌≤◌, pos, length, get_or};
ghost use Rattle.exact.specs.Table.{table};
ghost use Rattle.verdict.specs.Answer.{answer_of};
ghost use Rattle.verdict.specs.Table.{first};
ghost use Rattle.tree_theory.specs.Limits.{max_edges};
ghost use Rattle.lengths.specs.Limits.{max_denominator, max_numerator};
ghost use Rattle.lengths.specs.Tests.{fault_by, lengths_tests, sign_tests};
ghost use Rattle.lengths.specs.Kept.{LengthsAnswer};

use tree::Tree;
use verdict::{Place, Reason, Refusal, Rule, Verdict};

// The length of edge v is numerators[v] / denominator; behind the edges stand zeros.
#[derive(Clone, Copy)]
pub struct Lengths {
    pub denominator: u32,
    pub edges: usize,
    pub numerators: [i64; Tree::MAX_EDGES],
}

impl Lengths {
    pub const MAX_DENOMINATOR: u32 = 1_000_000;
    // How far a numerator may be from 0.
    pub const MAX_NUMERATOR: u64 = 100_000_000_000;

    // The lengths, where the check accepts them.
    pub fn new(edges: usize, d: u32, numerators: &[i64]) -> Result<Lengths, Refusal>
        ensures { LengthsAnswer edges d numerators.now result }
    {
        check_lengths(edges, d, numerators)?;
        Ok(Lengths {
            denominator: d,
            edges,
            numerators: copied(numerators),
        })
    }
}

// The limits as the code has them; the contract says that the definitions have the same.
#[derive(Clone, Copy)]
pub struct Limits {
    pub denominator: u32,
    pub numerator: u64,
}

pub fn stated_limits() -> Limits
    ensures { (result.denominator ≡ max_denominator) × (result.numerator ≡ max_numerator) }
{
    Limits {
        denominator: Lengths::MAX_DENOMINATOR,
        numerator: Lengths::MAX_NUMERATOR,
    }
}

// What a pass over the numerators asks: that each is in its range, or that none is negative.
#[derive(Clone, Copy)]
enum Ask {
    InRange,
    NotNegative,
}

// Whether a numerator is at fault.
fn at_fault(ask: Ask, numerator: i64) -> bool
    ensures { result ≡ fault_by ask numerator }
{
    match ask {
        Ask::InRange => arithmetic::magnitude(numerator) > Lengths::MAX_NUMERATOR,
        Ask::NotNegative => numerator < 0,
    }
}

// The first edge that a pass finds at fault; the count of numerators where it finds none.
fn first_at_fault(ask: Ask, numerators: &[i64]) -> usize
    ensures { result ≡ first (length numerators.now) (λ v. fault_by ask (get_or numerators.now v (pos 0))) }
{
    for (v, numerator) in numerators.iter().enumerate() {
        if at_fault(ask, *numerator) {
            return v;
        }
    }
    numerators.len()
}

// 11, 12, 13, the first that applies, for any count of edges, any d and any slice.
pub fn check_lengths(edges: usize, d: u32, numerators: &[i64]) -> Verdict
    ensures { answer_of result ≡ lengths_tests edges d numerators.now }
{
    if numerators.len() != edges {
        return Err(Refusal {
            reason: Reason::Edges,
            place: Place::Nowhere,
        });
    }
    if edges > Tree::MAX_EDGES {
        return Err(Refusal {
            reason: Reason::Edges,
            place: Place::Nowhere,
        });
    }
    if d < 1 {
        return Err(Refusal {
            reason: Reason::Denominator,
            place: Place::Nowhere,
        });
    }
    if d > Lengths::MAX_DENOMINATOR {
        return Err(Refusal {
            reason: Reason::Denominator,
            place: Place::Nowhere,
        });
    }
    let v = first_at_fault(Ask::InRange, numerators);
    if v < numerators.len() {
        return Err(Refusal {
            reason: Reason::Numerator,
            place: Place::Edge(v),
        });
    }
    Ok(())
}

// 22: where no length may be negative, one is.
pub fn check_signs(rule: Rule, numerators: &[i64]) -> Verdict
    ensures { answer_of result ≡ sign_tests rule numerators.now }
{
    match rule {
        Rule::Plain => Ok(()),
        Rule::Drawable => {
            let lowest = first_at_fault(Ask::NotNegative, numerators);
            if lowest < numerators.len() {
                return Err(Refusal {
                    reason: Reason::Negative,
                    place: Place::Edge(lowest),
                });
            }
            Ok(())
        }
    }
}

// The numerators, then zeros.
pub fn copied(numerators: &[i64]) -> [i64; Tree::MAX_EDGES]
    requires { length numerators.now ≤ max_edges }
    ensures { result ≡ table max_edges (λ v. get_or numerators.now v (pos 0)) }
{
    arrays::padded(numerators, 0)
}
