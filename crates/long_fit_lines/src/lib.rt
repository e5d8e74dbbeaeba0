// The print of a long sheet's fit, line by line, into a lent buffer: the bytes of RULES, The print and no other, with decimals of any length.
#![tactic(auto)]

ghost use Rattle.std.specs.Prelude.{[], ◌∷◌, ◌+◌, ◌*◌, ◌≤◌, length};
ghost use Rattle.exact.specs.Table.{entry_of};
ghost use Rattle.writing.specs.Text.{Wrote};
ghost use Rattle.lines.specs.Lines.{edge_lines_by};
ghost use Rattle.long_theory.specs.Long.{long_numerator, LongProper};
ghost use Rattle.long_writing.specs.Decimals.{long_signed};
ghost use Rattle.long_fields.specs.Fields.{widest_edge};
ghost use Rattle.long_lines.specs.LongLines.{long_page_size};
ghost use Rattle.long_fit_lines.specs.LongTexts.{Printed, Printable, numbers_text, long_report_text};

use long_carrying::WIDE;
use long_reporting::LongReport;
use tree::Tree;
use verdict::Rule;

// A line for each edge: the edge, n, m.
fn edge_lines(
    text: &mut [u8],
    at: usize,
    edges: usize,
    d: &[u32],
    digits: &[i64],
    rounded: &[i64; Tree::MAX_EDGES],
) -> usize
    requires long_proper { LongProper edges d.now digits.now }
    requires room { at + widest_edge * edges ≤ length text.old }
    ensures wrote { Wrote text.old text.new at (edge_lines_by long_signed edges (λ v. long_numerator (length d.now) edges digits.now v ∷ entry_of rounded.now v ∷ [])) result }
    ensures upper_bound { result ≤ at + widest_edge * edges }
{
    let mut next = at;
    for v in 0..edges {
        next = long_fields::edge_line(text, next, edges, d, digits, v, rounded[v]);
    }
    next
}

// The whole print by its numbers, at the front of the buffer.
fn print_numbers(
    text: &mut [u8],
    rule: Rule,
    n: u32,
    edges: usize,
    d: &[u32],
    digits: &[i64],
    rounded: &[i64; Tree::MAX_EDGES],
    negative: bool,
    total: &[u32],
    f: &[u32],
    r: i64,
    h: i64,
    over: Option<[u32; WIDE]>,
) -> usize
    requires long_proper { LongProper edges d.now digits.now }
    requires printed { Printed (length d.now) negative total.now f.now over }
    requires room { long_page_size ≤ length text.old }
    ensures { Wrote text.old text.new 0 (numbers_text rule n edges d.now digits.now rounded.now negative total.now f.now r h over) result }
{
    let levels = d.len() + 3;
    let next = long_lines::fit_line(text, rule, n, edges, d);
    let next = edge_lines(text, next, edges, d, digits, rounded);
    let next = long_lines::length_line(text, next, negative, levels, total);
    let next = long_lines::square_line(text, next, levels, f, r, h);
    match over {
        None => long_lines::mean_line(text, next, levels, f, None),
        Some(digits) => long_lines::mean_line(text, next, levels, f, Some(&digits)),
    }
}

// The whole print of a fit in digits, at the front of the buffer: `d` has the digits of D, `digits` those of the numerators.
pub fn long_fit_text(
    text: &mut [u8],
    rule: Rule,
    d: &[u32],
    digits: &[i64],
    report: LongReport,
) -> usize
    requires long_proper { LongProper report.edges d.now digits.now }
    requires printable { Printable (length d.now) report }
    requires room { long_page_size ≤ length text.old }
    ensures { Wrote text.old text.new 0 (long_report_text rule d.now digits.now report) result }
{
    let rounded = report.rounded;
    let length = report.length;
    let total = length.digits;
    let f = report.f;
    print_numbers(
        text,
        rule,
        report.strains,
        report.edges,
        d,
        digits,
        &rounded,
        length.negative,
        &total,
        &f,
        report.r,
        report.h,
        report.mean,
    )
}
