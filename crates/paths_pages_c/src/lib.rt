// The print of the pairs of a sheet, for programs in C: each function is the library's of the same name.
#![tactic(auto)]

ghost use Rattle.pages.specs.Texts.{ShownOn};
ghost use Rattle.pair_lines.specs.Lines.{pairs_page};
ghost use Rattle.paths_pages.specs.Texts.{paths_text, PathsClose};

// The print of the pairs of a sheet, at the front of a buffer of 262,144 bytes or more; a smaller one is left as it was.
// The result is how many bytes the print has, 0 where the buffer is too small.
#[unsafe(no_mangle)]
pub extern "C" fn paths_print(s: &[u8], text: &mut [u8]) -> usize
    ensures shown_on { ShownOn pairs_page (paths_text s.now) text.old text.new result }
    ensures paths_close { PathsClose s.now }
{
    paths_pages::paths_print(s, text)
}
