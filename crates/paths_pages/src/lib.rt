// What is shown of the pairs of a sheet, with names or without: a line for each pair, or the refusal, at the front of a lent buffer of a page
// or more.
#![tactic(auto)]

ghost use Rattle.std.specs.Prelude.{◌≡◌, ◌≤◌, ◌<◌, length};
ghost use Rattle.verdict.specs.Answer.{pass, ◌or_else◌};
ghost use Rattle.writing.specs.Text.{Wrote};
ghost use Rattle.answer_lines.specs.Texts.{by_answer};
ghost use Rattle.records.specs.Form.{max_records, form_tests};
ghost use Rattle.reading.specs.Holds.{strains_of};
ghost use Rattle.reading.specs.Tests.{read_tests, held_tests};
ghost use Rattle.names.specs.Record.{name_of};
ghost use Rattle.pages.specs.Texts.{ShownOn};
ghost use Rattle.pair_lines.specs.Lines.{pairs_page, NamesFrom};
ghost use Rattle.paths_pages.specs.Texts.{pairs_of_sheet, paths_text, PathsClose, JudgedSheet};

use pair_lines::PAGE;
use reading::Sheet;
use verdict::{Refusal, Rule};

// What a sheet of so many records holds, where it stands by the plain rule.
fn judged(s: &[u8], count: usize) -> Result<Sheet, Refusal>
    requires { (2 < count) × (count ≤ max_records) }
    ensures { JudgedSheet count s.now result }
{
    let sheet = reading::read(s, count)?;
    let pairs = sheet.pairs;
    let parents = sheet.parents;
    let end = sheet.end;
    let edges = sheet.edges;
    let distances = sheet.distances;
    let numerators = sheet.numerators;
    judging::judge_proposal(
        Rule::Plain,
        sheet.strains,
        &distances[..pairs],
        &s[parents..end],
        sheet.denominator,
        &numerators[..edges],
    )?;
    Ok(sheet)
}

// The print of a sheet of so many records, its strains called by names that stand from a place on.
fn print_pairs(s: &[u8], count: usize, names: &[u8], from: usize, text: &mut [u8]) -> usize
    requires lt_count { (2 < count) × (count ≤ max_records) }
    requires names_from { read_tests count s.now ≡ pass → NamesFrom names.now from (strains_of s.now) }
    requires pairs_page_in_bounds { pairs_page ≤ length text.old }
    ensures { Wrote text.old text.new 0 (by_answer (form_tests count s.now or_else held_tests Rule.Plain s.now) (pairs_of_sheet (name_of names.now from) s.now)) result }
{
    match judged(s, count) {
        Ok(sheet) => {
            let pairs = sheet.pairs;
            let parents = sheet.parents;
            let end = sheet.end;
            let edges = sheet.edges;
            let distances = sheet.distances;
            let numerators = sheet.numerators;
            pair_lines::pairs_text(
                text,
                sheet.strains,
                &distances[..pairs],
                &s[parents..end],
                sheet.denominator,
                &numerators[..edges],
                names,
                from,
            )
        }
        Err(refusal) => lines::refused_line(text, 0, u32::from(refusal.reason), refusal.place),
    }
}

// The print of the pairs of a sheet, at the front of a buffer of 262,144 bytes or more; a smaller one is left as it was. The result is how many
// bytes the print has, 0 where the buffer is too small. The crate paths_pages_c exports it to C.
pub fn paths_print(s: &[u8], text: &mut [u8]) -> usize
    ensures shown_on { ShownOn pairs_page (paths_text s.now) text.old text.new result }
    ensures paths_close { PathsClose s.now }
{
    if text.len() < PAGE {
        return 0;
    }
    if !sheet_names::has_names(s) {
        let numbers = labels::numbers();
        return print_pairs(s, 3, &numbers, 0, text);
    }
    match sheet_names::labelled(s) {
        Ok(from) => print_pairs(s, 4, s, from, text),
        Err(refusal) => lines::refused_line(text, 0, u32::from(refusal.reason), refusal.place),
    }
}
