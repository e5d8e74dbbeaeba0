// The direct fit of a resolved tree, for programs in C.
#![tactic(auto)]

ghost use Rattle.direct_fit.specs.Answers.{LengthsAnswer};

// The lengths of a resolved tree in the three buffers, by direct_fit's function of this name. The result is the number, 0 where the tree is
// fitted; otherwise the buffers are as they were.
#[unsafe(no_mangle)]
pub extern "C" fn resolved_lengths(
    n: u32,
    distances: &[u16],
    parents: &[u8],
    numerators: &mut [i64],
    denominators: &mut [u32],
    rounded: &mut [i64],
) -> u32
    ensures { LengthsAnswer n distances.now parents.now numerators.old numerators.new denominators.old denominators.new rounded.old rounded.new result }
{
    direct_fit::resolved_lengths(n, distances, parents, numerators, denominators, rounded)
}
