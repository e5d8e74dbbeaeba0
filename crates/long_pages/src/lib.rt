// What is shown of a long sheet: its print, at the front of a lent buffer of a long page or more.
#![tactic(auto)]

ghost use Rattle.pages.specs.Texts.{ShownOn};
ghost use Rattle.long_lines.specs.LongLines.{long_page_size};
ghost use Rattle.long_prints.specs.LongPrints.{long_text};

use verdict::Rule;

// The bytes of a long page: every print of a long sheet fits one.
pub const LONG_PAGE: usize = 65_536;

// The print of a long sheet by a rule, at the front of a buffer of a long page or more; a smaller one is left as it was. The result is how many bytes
// the print has, 0 where the buffer is too small. The two prints share it.
fn print_by(rule: Rule, s: &[u8], text: &mut [u8]) -> usize
    ensures { ShownOn long_page_size (long_text rule s.now) text.old text.new result }
{
    if text.len() < LONG_PAGE {
        return 0;
    }
    long_prints::print_long(rule, s, text)
}

// The print of a long sheet, at the front of a buffer of a long page or more; a smaller one is left as it was. The result is how many bytes the
// print has, 0 where the buffer is too small. The crate long_pages_c exports both prints to C.
pub fn long_print(s: &[u8], text: &mut [u8]) -> usize
    ensures { ShownOn long_page_size (long_text Rule.Plain s.now) text.old text.new result }
{
    print_by(Rule::Plain, s, text)
}

// The same where no length may be negative.
pub fn long_print0(s: &[u8], text: &mut [u8]) -> usize
    ensures { ShownOn long_page_size (long_text Rule.Drawable s.now) text.old text.new result }
{
    print_by(Rule::Drawable, s, text)
}
