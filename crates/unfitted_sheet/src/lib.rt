// A sheet without lengths, fitted: its two records are read once, and what they hold is lent to the direct fit. Any
// bytes whatever get an answer.
#![tactic(auto)]

ghost use Rattle.unfitted_sheet.specs.Fits.{UnfittedAnswer};

use direct_fit::DirectFit;
use tree::Tree;
use verdict::Refusal;

// The direct fit of a sheet: N, K, and for each edge the numerator and the denominator of its length and its rounding
// to thousandths, each followed by zeros.
#[derive(Clone, Copy)]
pub struct UnfittedFit {
    pub fit: DirectFit,
    pub strains: u32,
    pub edges: usize,
    pub tops: [i64; Tree::MAX_EDGES],
    pub bottoms: [u32; Tree::MAX_EDGES],
    pub rounded: [i64; Tree::MAX_EDGES],
}

// The direct fit of a sheet without lengths: 1 to 10, 16, 25, 26, the first that applies.
pub fn unfitted_fit(s: &[u8]) -> Result<UnfittedFit, Refusal>
    ensures { UnfittedAnswer s.now result }
{
    let sheet = reading::read(s, 2)?;
    let strains = sheet.strains;
    let pairs = sheet.pairs;
    let parents = sheet.parents;
    let end = sheet.end;
    let distances = sheet.distances;
    direct_fit::check_resolved(strains, &distances[..pairs], &s[parents..end])?;
    let edges = end - parents;
    let mut tops: [i64; Tree::MAX_EDGES] = arrays::filled(0);
    let mut bottoms: [u32; Tree::MAX_EDGES] = arrays::filled(0);
    let mut rounded: [i64; Tree::MAX_EDGES] = arrays::filled(0);
    let fit = direct_fit::resolve(
        strains,
        &distances[..pairs],
        &s[parents..end],
        &mut tops[..edges],
        &mut bottoms[..edges],
        &mut rounded[..edges],
    );
    Ok(UnfittedFit {
        fit,
        strains,
        edges,
        tops,
        bottoms,
        rounded,
    })
}
