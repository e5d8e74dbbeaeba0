// A sheet of bytes, judged and reported: its records are read once, and what they hold is lent to the verdict and to the
// report. Any bytes whatever get an answer.
#![tactic(auto)]

ghost use Rattle.std.specs.Prelude.{◌≡◌};
ghost use Rattle.verdict.specs.Answer.{answer_of, number};
ghost use Rattle.reading.specs.Tests.{sheet_tests};
ghost use Rattle.sheet.specs.Reports.{SheetReport};

use matrix::Matrix;
use reporting::FitReport;
use tree::Tree;
use verdict::{Refusal, Rule, Verdict};

// The report on an accepted sheet, with its numerators and its rounded lengths, each followed by zeros.
#[derive(Clone, Copy)]
pub struct SheetFit {
    pub report: FitReport,
    pub numerators: [i64; Tree::MAX_EDGES],
    pub rounded: [i64; Tree::MAX_EDGES],
}

// The answer to a sheet: 1 to 14, 16, 22, 23, 26, the first that applies.
pub fn sheet_judge(rule: Rule, s: &[u8]) -> Verdict
    ensures { answer_of result ≡ sheet_tests rule s.now }
{
    let mut distances: [u16; Matrix::MAX_PAIRS] = arrays::filled(0);
    let mut numerators: [i64; Tree::MAX_EDGES] = arrays::filled(0);
    let sheet = reading::read_into(s, 3, &mut distances, &mut numerators)?;
    let pairs = sheet.pairs;
    let parents = sheet.parents;
    let end = sheet.end;
    let edges = sheet.edges;
    judging::judge_proposal(
        rule,
        sheet.strains,
        &distances[..pairs],
        &s[parents..end],
        sheet.denominator,
        &numerators[..edges],
    )
}

// The report on a sheet: 1 to 14, 16, 22, 23, 26, the first that applies.
pub fn sheet_report(rule: Rule, s: &[u8]) -> Result<SheetFit, Refusal>
    ensures { SheetReport rule s.now result }
{
    let sheet = reading::read(s, 3)?;
    let pairs = sheet.pairs;
    let parents = sheet.parents;
    let end = sheet.end;
    let edges = sheet.edges;
    let distances = sheet.distances;
    let numerators = sheet.numerators;
    let mut rounded: [i64; Tree::MAX_EDGES] = arrays::filled(0);
    let report = reporting::report_proposal(
        rule,
        sheet.strains,
        &distances[..pairs],
        &s[parents..end],
        sheet.denominator,
        &numerators[..edges],
        &mut rounded[..edges],
    )?;
    Ok(SheetFit {
        report,
        numerators,
        rounded,
    })
}

// The number that a sheet gets by a rule. The two verdicts share it: a number goes back in a register, so the tables of the sheet
// are judged where they were read, which a verdict handed back in memory would prevent.
fn sheet_number(rule: Rule, s: &[u8]) -> u32
    ensures { result ≡ number (sheet_tests rule s.now) }
{
    verdict::number(&sheet_judge(rule, s))
}

// The number that a sheet gets, 0 where it is accepted. The crate sheet_c exports both verdicts to C.
pub fn sheet_verdict(s: &[u8]) -> u32
    ensures { result ≡ number (sheet_tests Rule.Plain s.now) }
{
    sheet_number(Rule::Plain, s)
}

// The same where no length may be negative.
pub fn sheet_verdict0(s: &[u8]) -> u32
    ensures { result ≡ number (sheet_tests Rule.Drawable s.now) }
{
    sheet_number(Rule::Drawable, s)
}
