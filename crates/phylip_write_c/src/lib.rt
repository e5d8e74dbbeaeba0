// The writer of PHYLIP's square matrices, for programs in C.
#![tactic(auto)]

ghost use Rattle.phylip_write.specs.Answers.{NumberAnswer};

// The text of a square matrix, at the front of a buffer, by phylip_write's function of this name. The result is the number; where it is 0 the
// text's length is in `length`, otherwise both are as they were.
#[unsafe(no_mangle)]
pub extern "C" fn phylip_write(
    n: u32,
    distances: &[u16],
    names: &[u8],
    text: &mut [u8],
    length: &mut usize,
) -> u32
    ensures { NumberAnswer n distances.now names.now text.old text.new length.old length.new result }
{
    phylip_write::phylip_write(n, distances, names, text, length)
}
