// The writer of trees in text, for programs in C.
#![tactic(auto)]

ghost use Rattle.newick_write.specs.Answers.{NumberAnswer};

// The text of a tree, at the front of a buffer, by newick_write's function of this name. The result is the number; where it is 0 the text's length
// is in `length`, otherwise both are as they were.
#[unsafe(no_mangle)]
pub extern "C" fn newick_write(
    names: &[u8],
    parents: &[u8],
    thousandths: &[i64],
    text: &mut [u8],
    length: &mut usize,
) -> u32
    ensures { NumberAnswer names.now parents.now thousandths.now text.old text.new length.old length.new result }
{
    newick_write::newick_write(names, parents, thousandths, text, length)
}
