// The fitted tree of a sheet with names as Newick text: the sheet is judged as any other, with its names between the form and what its
// records hold, and written after.
#![tactic(auto)]

ghost use Rattle.std.specs.Prelude.{◌≡◌, length};
ghost use Rattle.verdict.specs.Answer.{pass};
ghost use Rattle.records.specs.Form.{form_tests};
ghost use Rattle.newick_write.specs.Answers.{Told};
ghost use Rattle.newick_sheet.specs.Named.{sheet_text_tests, named_text, FittingAnswer};

use newick_words::MAX_TEXT;
use tree::Tree;
use verdict::{Reason, Refusal, Rule};

// The fit of a sheet with names: its strains, where its parents start and end among the bytes, its edges and their lengths in
// thousandths, then zeros.
#[derive(Clone, Copy)]
struct Fitting {
    strains: usize,
    parents: usize,
    end: usize,
    edges: usize,
    lengths: [i64; Tree::MAX_EDGES],
}

// What the first three records of a sheet of the form hold, its lengths rounded, or the refusal: 6 to 14, 16, 26.
fn fit_of(s: &[u8]) -> Result<Fitting, Refusal>
    requires { form_tests 4 s.now ≡ pass }
    ensures { FittingAnswer s.now result }
{
    let sheet = reading::read(s, 4)?;
    let pairs = sheet.pairs;
    let parents = sheet.parents;
    let end = sheet.end;
    let edges = sheet.edges;
    judging::judge_proposal(
        Rule::Plain,
        sheet.strains,
        &sheet.distances[..pairs],
        &s[parents..end],
        sheet.denominator,
        &sheet.numerators[..edges],
    )?;
    Ok(Fitting {
        strains: sheet.strains as usize,
        parents,
        end,
        edges,
        lengths: fit_numbers::rounded(edges, sheet.denominator, &sheet.numerators[..edges]),
    })
}

// The text of the tree that a sheet with names fits, at the front of a buffer of exactly 65,536 bytes: how many bytes it has, or the
// refusal: 1 to 5, 28, 6 to 16, 26, the first that applies.
pub fn write_sheet(s: &[u8], text: &mut [u8]) -> Result<usize, Refusal>
    ensures { Told (sheet_text_tests s.now (length text.old)) (named_text s.now) text.old text.new result }
{
    let from = sheet_names::labelled(s)?;
    let fit = fit_of(s)?;
    refusing::test(Reason::Buffer, text.len() != MAX_TEXT)?;
    let parents = fit.parents;
    let end = fit.end;
    let edges = fit.edges;
    Ok(newick_write::put_named(
        s,
        from,
        fit.strains,
        &s[parents..end],
        &fit.lengths[..edges],
        text,
    ))
}
