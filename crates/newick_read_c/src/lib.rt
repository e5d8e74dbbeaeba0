// The reader of trees in text, for programs in C.
#![tactic(auto)]

ghost use Rattle.newick_read.specs.Answers.{NumberAnswer};

// A tree in text beside a names record, read into the two buffers, by newick_read's function of this name. The result is the number, 0 where both
// buffers are filled; otherwise they are as they were.
#[unsafe(no_mangle)]
pub extern "C" fn newick_read(
    names: &[u8],
    text: &[u8],
    parents: &mut [u8],
    numerators: &mut [i64],
) -> u32
    ensures { NumberAnswer names.now text.now parents.old parents.new numerators.old numerators.new result }
{
    newick_read::newick_read(names, text, parents, numerators)
}
