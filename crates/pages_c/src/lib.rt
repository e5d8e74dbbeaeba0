// The prints of a sheet, with its lengths or without, for programs in C: each function is the library's of the same name.
#![tactic(auto)]

ghost use Rattle.pages.specs.Texts.{sheet_text, unfitted_text, Shown};

use verdict::Rule;

// The print of a sheet, at the front of a buffer of a page or more; a smaller one is left as it
// was. The result is how many bytes the print has, 0 where the buffer is too small.
#[unsafe(no_mangle)]
pub extern "C" fn sheet_print(s: &[u8], text: &mut [u8]) -> usize
    ensures { Shown (sheet_text Rule.Plain s.now) text.old text.new result }
{
    pages::sheet_print(s, text)
}

// The same where no length may be negative.
#[unsafe(no_mangle)]
pub extern "C" fn sheet_print0(s: &[u8], text: &mut [u8]) -> usize
    ensures { Shown (sheet_text Rule.Drawable s.now) text.old text.new result }
{
    pages::sheet_print0(s, text)
}

// The print of a sheet without lengths, at the front of a buffer of a page or more; a smaller
// one is left as it was. The result is how many bytes the print has, 0 where the buffer is too small.
#[unsafe(no_mangle)]
pub extern "C" fn unfitted_print(s: &[u8], text: &mut [u8]) -> usize
    ensures { Shown (unfitted_text s.now) text.old text.new result }
{
    pages::unfitted_print(s, text)
}
