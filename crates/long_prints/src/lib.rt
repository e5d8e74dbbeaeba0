// The print of a long sheet's bytes: its records are read once, the digits of its lengths decoded, judged and printed, at the front of a lent buffer
// that has room. Any bytes whatever get a print.
#![tactic(auto)]

ghost use Rattle.std.specs.Prelude.{◌≤◌, length};
ghost use Rattle.fit_theory.specs.Stands.{Posted};
ghost use Rattle.long_theory.specs.Tests.{long_proposal_tests};
ghost use Rattle.writing.specs.Text.{Wrote};
ghost use Rattle.answer_lines.specs.Texts.{by_answer};
ghost use Rattle.long_lines.specs.LongLines.{long_page_size};
ghost use Rattle.long_fit_lines.specs.LongTexts.{long_fit_of};
ghost use Rattle.long_prints.specs.LongPrints.{long_text};

use verdict::Rule;

// The print of long lengths beside a matrix and a tree that pass: what they are refused for, or their numbers.
fn print_lengths(
    rule: Rule,
    n: u32,
    distances: &[u16],
    parents: &[u8],
    d: &[u32],
    digits: &[i64],
    text: &mut [u8],
) -> usize
    requires posted { Posted n distances.now parents.now }
    requires long_page_size_in_bounds { long_page_size ≤ length text.old }
    ensures { Wrote text.old text.new 0 (by_answer (long_proposal_tests rule n distances.now parents.now d.now digits.now) (long_fit_of rule n distances.now parents.now d.now digits.now)) result }
{
    match long_judging::judge_long_proposal(rule, n, distances, parents, d, digits) {
        Err(refusal) => lines::refused_line(text, 0, u32::from(refusal.reason), refusal.place),
        Ok(()) => {
            let report = long_reporting::long_numbered(rule, n, distances, parents, d, digits);
            long_fit_lines::long_fit_text(text, rule, d, digits, report)
        }
    }
}

// The print of a long sheet by a rule, at the front of a buffer of a long page or more.
pub fn print_long(rule: Rule, s: &[u8], text: &mut [u8]) -> usize
    requires { long_page_size ≤ length text.old }
    ensures { Wrote text.old text.new 0 (long_text rule s.now) result }
{
    let sheet = match long_reading::read_long(s) {
        Ok(sheet) => sheet,
        Err(refusal) => {
            return lines::refused_line(text, 0, u32::from(refusal.reason), refusal.place);
        }
    };
    let pairs = sheet.pairs;
    let parents = sheet.parents;
    let end = sheet.end;
    let levels = sheet.levels;
    let count = levels * sheet.edges;
    let distances = sheet.distances;
    let d = long_decoding::denominator_digits(s, sheet.denominator, levels);
    let mut digits: [i64; long_decoding::MAX_DIGITS] = arrays::filled(0);
    long_decoding::digits_into(s, sheet.numerators, count, &mut digits[..count]);
    print_lengths(
        rule,
        sheet.strains,
        &distances[..pairs],
        &s[parents..end],
        &d[..levels],
        &digits[..count],
        text,
    )
}
