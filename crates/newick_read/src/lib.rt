// The reader of trees in text, into lent buffers: names and text are gone through and judged first, the buffers are filled after. A
// refusal leaves them as they were.
#![tactic(auto)]

ghost use Rattle.std.specs.Prelude.{◌≡◌, not, ◌||◌, eqb, length};
ghost use Rattle.verdict.specs.Answer.{answer_of};
ghost use Rattle.newick_read.specs.Answers.{SizesAnswer, Reads, NumberAnswer};

use verdict::{Reason, Refusal, Verdict};

// How many strains a names record has and how many edges the text's tree: so many entries the buffers must have.
#[derive(Clone, Copy)]
pub struct Sizes {
    pub strains: usize,
    pub edges: usize,
}

// The sizes, or the refusal: 2 to 5 and 28 for the names, 6, 28 for the text, 29, 8, 10, 13, the first that applies.
pub fn survey(names: &[u8], text: &[u8]) -> Result<Sizes, Refusal>
    ensures { SizesAnswer names.now text.now result }
{
    let shown = newick_survey::survey_text(names, text)?;
    Ok(Sizes {
        strains: shown.strains,
        edges: shown.edges,
    })
}

// 15: whether there is room for other than so many parents and numerators.
fn room_out(edges: usize, parents: usize, numerators: usize) -> bool
    ensures { result ≡ (not (eqb parents edges) || not (eqb numerators edges)) }
{
    if parents != edges {
        return true;
    }
    numerators != edges
}

// The parents and the numerators of a text beside names: what `survey` gives, then 15; a refusal leaves both buffers as they were.
pub fn read(names: &[u8], text: &[u8], parents: &mut [u8], numerators: &mut [i64]) -> Verdict
    ensures { Reads names.now text.now parents.old parents.new numerators.old numerators.new (answer_of result) }
{
    let found = newick_survey::survey_text(names, text)?;
    refusing::test(
        Reason::Buffer,
        room_out(found.edges, parents.len(), numerators.len()),
    )?;
    let edges = found.edges;
    parents.copy_from_slice(&found.parents[..edges]);
    numerators.copy_from_slice(&found.numerators[..edges]);
    Ok(())
}

// The same as a number, 0 where both buffers are filled. The crate newick_read_c exports it to C.
pub fn newick_read(names: &[u8], text: &[u8], parents: &mut [u8], numerators: &mut [i64]) -> u32
    ensures { NumberAnswer names.now text.now parents.old parents.new numerators.old numerators.new result }
{
    verdict::number(&read(names, text, parents, numerators))
}
