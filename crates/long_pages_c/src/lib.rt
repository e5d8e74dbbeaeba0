// The print of a long sheet, for programs in C: each function is the library's of the same name.
#![tactic(auto)]

ghost use Rattle.pages.specs.Texts.{ShownOn};
ghost use Rattle.long_lines.specs.LongLines.{long_page_size};
ghost use Rattle.long_prints.specs.LongPrints.{long_text};

use verdict::Rule;

// The print of a long sheet, at the front of a buffer of a long page or more; a smaller one is left as it was. The result is
// how many bytes the print has, 0 where the buffer is too small.
#[unsafe(no_mangle)]
pub extern "C" fn long_print(s: &[u8], text: &mut [u8]) -> usize
    ensures { ShownOn long_page_size (long_text Rule.Plain s.now) text.old text.new result }
{
    long_pages::long_print(s, text)
}

// The same where no length may be negative.
#[unsafe(no_mangle)]
pub extern "C" fn long_print0(s: &[u8], text: &mut [u8]) -> usize
    ensures { ShownOn long_page_size (long_text Rule.Drawable s.now) text.old text.new result }
{
    long_pages::long_print0(s, text)
}
