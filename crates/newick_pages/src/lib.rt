// What is shown of a sheet with names: the text of its fitted tree and a line end, or its refusal, at the front of a lent buffer of a page
// or more.
#![tactic(auto)]

ghost use Rattle.std.specs.Prelude.{◌≡◌, length};
ghost use Rattle.pages.specs.Texts.{ShownOn};
ghost use Rattle.newick_pages.specs.Texts.{newick_text, newick_page};

use newick_words::MAX_TEXT;

// The bytes of a page: the longest text, and a line end.
pub const PAGE: usize = MAX_TEXT + 1;

// The print of a sheet with names, at the front of a buffer of 65,537 bytes or more; a smaller one is left as it was. The result is how many
// bytes the print has, 0 where the buffer is too small. The crate newick_pages_c exports it to C.
pub fn newick_print(s: &[u8], text: &mut [u8]) -> usize
    ensures { ShownOn newick_page (newick_text s.now) text.old text.new result }
{
    if text.len() < PAGE {
        return 0;
    }
    match newick_sheet::write_sheet(s, &mut text[..MAX_TEXT]) {
        Ok(end) => writing::put(text, end, b'\n'),
        Err(refusal) => lines::refused_line(text, 0, u32::from(refusal.reason), refusal.place),
    }
}
