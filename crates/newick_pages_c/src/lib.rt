// The print of the tree of a sheet with names, for programs in C: each function is the library's of the same name.
#![tactic(auto)]

ghost use Rattle.pages.specs.Texts.{ShownOn};
ghost use Rattle.newick_pages.specs.Texts.{newick_text, newick_page};

// The print of a sheet with names, at the front of a buffer of 65,537 bytes or more; a smaller one is left as it was.
// The result is how many bytes the print has, 0 where the buffer is too small.
#[unsafe(no_mangle)]
pub extern "C" fn newick_print(s: &[u8], text: &mut [u8]) -> usize
    ensures { ShownOn newick_page (newick_text s.now) text.old text.new result }
{
    newick_pages::newick_print(s, text)
}
