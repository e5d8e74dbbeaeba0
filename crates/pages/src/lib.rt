// What the programs show: the print of a sheet, with its lengths or without, at the front of a lent buffer of a page
// or more.
#![tactic(auto)]

ghost use Rattle.std.specs.Prelude.{◌≡◌};
ghost use Rattle.exact.specs.Table.{table};
ghost use Rattle.lines.specs.Page.{page_size};
ghost use Rattle.pages.specs.Texts.{sheet_text, unfitted_text, Shown};

use verdict::Rule;

// The bytes of a page: every print fits one.
pub const PAGE: usize = 16_384;

// The print of a sheet by a rule, at the front of a buffer of a page or more; a smaller one is left as it was. The
// result is how many bytes the print has, 0 where the buffer is too small.
fn print_by(rule: Rule, s: &[u8], text: &mut [u8]) -> usize
    ensures { Shown (sheet_text rule s.now) text.old text.new result }
{
    if text.len() < PAGE {
        return 0;
    }
    answer_lines::report_text(rule, &sheet::sheet_report(rule, s), text)
}

// The print of a sheet, at the front of a buffer of a page or more; a smaller one is left as it was. The result is how
// many bytes the print has, 0 where the buffer is too small. The crate pages_c exports the three prints to C.
pub fn sheet_print(s: &[u8], text: &mut [u8]) -> usize
    ensures { Shown (sheet_text Rule.Plain s.now) text.old text.new result }
{
    print_by(Rule::Plain, s, text)
}

// The same where no length may be negative.
pub fn sheet_print0(s: &[u8], text: &mut [u8]) -> usize
    ensures { Shown (sheet_text Rule.Drawable s.now) text.old text.new result }
{
    print_by(Rule::Drawable, s, text)
}

// The print of a sheet without lengths, at the front of a buffer of a page or more; a smaller one is left as it was. The
// result is how many bytes the print has, 0 where the buffer is too small.
pub fn unfitted_print(s: &[u8], text: &mut [u8]) -> usize
    ensures { Shown (unfitted_text s.now) text.old text.new result }
{
    if text.len() < PAGE {
        return 0;
    }
    answer_lines::direct_text(&unfitted_sheet::unfitted_fit(s), text)
}
