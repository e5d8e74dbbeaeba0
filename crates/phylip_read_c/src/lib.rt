// The reader of PHYLIP's square matrices, for programs in C.
#![tactic(auto)]

ghost use Rattle.phylip_read.specs.Answers.{NumberAnswer};

// A square matrix in text, read into the two buffers, by phylip_read's function of this name. The result is the number, 0 where both buffers are
// filled; otherwise they are as they were.
#[unsafe(no_mangle)]
pub extern "C" fn phylip_read(text: &[u8], distances: &mut [u16], names: &mut [u8]) -> u32
    ensures { NumberAnswer text.now distances.old distances.new names.old names.new result }
{
    phylip_read::phylip_read(text, distances, names)
}
