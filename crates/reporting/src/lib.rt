// The report of a fit, over lent slices: its numbers, and its rounded lengths in a lent buffer. A refusal reports nothing
// and leaves the buffer as it was.
#![tactic(auto)]

ghost use Rattle.std.specs.Prelude.{◌≡◌, length};
ghost use Rattle.fit_theory.specs.Stands.{Posted, Stands};
ghost use Rattle.reporting.specs.Answers.{Reported, ProposalReport, ReportAnswer};

use mean::Mean;
use verdict::{Place, Reason, Refusal, Rule};

// The numbers of an accepted fit. The tree length is length / denominator, the sum of squares f / denominator, the mean
// square f over what mean says.
#[derive(Clone, Copy)]
pub struct FitReport {
    pub strains: u32,
    pub edges: usize,
    pub denominator: u32,
    pub length: i64,
    pub f: i64,
    pub r: i64,
    pub h: i64,
    pub mean: Mean,
}

// The numbers of lengths that fit, with the rounded lengths in the buffer. That they fit is what keeps F and R within
// 64 bits.
pub fn numbered(
    rule: Rule,
    n: u32,
    distances: &[u16],
    parents: &[u8],
    d: u32,
    numerators: &[i64],
    rounded: &mut [i64],
) -> FitReport
    requires stands { Stands rule n distances.now parents.now d numerators.now }
    requires rounded_len { length rounded.old ≡ length parents.now }
    ensures { Reported rule n distances.now parents.now d numerators.now rounded.new result }
{
    let strains = n as usize;
    let edges = parents.len();
    let thousandths = fit_numbers::rounded(edges, d, numerators);
    let figures = fit_numbers::figures(
        strains,
        edges,
        d,
        distances,
        parents,
        numerators,
        &thousandths,
    );
    let length = fit_numbers::total(edges, numerators);
    tables::copy_out(edges, &thousandths, rounded);
    FitReport {
        strains: n,
        edges,
        denominator: d,
        length,
        f: figures.f,
        r: figures.r,
        h: figures.h,
        mean: mean::mean_over(n, distances, edges, d),
    }
}

// The report of lengths beside a matrix and a tree that pass: 11 to 13, 22, 14, 23, 15, the first that applies.
pub fn report_proposal(
    rule: Rule,
    n: u32,
    distances: &[u16],
    parents: &[u8],
    d: u32,
    numerators: &[i64],
    rounded: &mut [i64],
) -> Result<FitReport, Refusal>
    requires { Posted n distances.now parents.now }
    ensures { ProposalReport rule n distances.now parents.now d numerators.now rounded.old rounded.new result }
{
    judging::judge_proposal(rule, n, distances, parents, d, numerators)?;
    if rounded.len() != parents.len() {
        return Err(Refusal {
            reason: Reason::Buffer,
            place: Place::Nowhere,
        });
    }
    Ok(numbered(rule, n, distances, parents, d, numerators, rounded))
}

// The report: 4, 6 to 16, 22, 23, 26, the first that applies.
pub fn report(
    rule: Rule,
    n: u32,
    distances: &[u16],
    parents: &[u8],
    d: u32,
    numerators: &[i64],
    rounded: &mut [i64],
) -> Result<FitReport, Refusal>
    ensures { ReportAnswer rule n distances.now parents.now d numerators.now rounded.old rounded.new result }
{
    posting::check_posting(n, distances, parents)?;
    report_proposal(rule, n, distances, parents, d, numerators, rounded)
}
