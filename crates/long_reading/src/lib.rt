// A long sheet of bytes, read once: its matrix and its tree as those of any sheet, and where the digits of its long lengths start. The digits
// themselves stay where they are.
#![tactic(auto)]

ghost use Rattle.std.specs.Prelude.{◌≡◌};
ghost use Rattle.verdict.specs.Answer.{pass};
ghost use Rattle.records.specs.Form.{start_of};
ghost use Rattle.long_records.specs.LongForm.{long_form_tests};
ghost use Rattle.long_reading.specs.LongReads.{LongAnswer};

use long_lengths::MAX_LEVELS;
use matrix::Matrix;
use records::Layout;
use verdict::{Place, Reason, Refusal};

// What a long sheet holds: N and the distances, then zeros; where the parents of its tree start and end among the bytes; L and K, and where the
// digits of D and those of the numerators start.
#[derive(Clone, Copy)]
pub struct LongSheet {
    pub strains: u32,
    pub pairs: usize,
    pub distances: [u16; Matrix::MAX_PAIRS],
    pub parents: usize,
    pub end: usize,
    pub levels: usize,
    pub edges: usize,
    pub denominator: usize,
    pub numerators: usize,
}

// What a long sheet of the form holds, whose tree starts at `tree` and ends at `end`: 6 to 12, 16, 26. Of D it is asked how many digits there are.
fn held(s: &[u8], tree: usize, end: usize) -> Result<LongSheet, Refusal>
    requires { (long_form_tests s.now ≡ pass) × (tree ≡ start_of s.now 1) × (end ≡ start_of s.now 2) }
    ensures { LongAnswer s.now result }
{
    let mut distances: [u16; Matrix::MAX_PAIRS] = arrays::filled(0);
    let front = front::read_front(s, 3, tree, end, &mut distances)?;
    let body = end + Layout::HEAD;
    let levels = endian::u16_at(s, body) as usize;
    let edges = endian::u16_at(s, body + 2) as usize;
    if edges != end - front.parents {
        return Err(Refusal {
            reason: Reason::Edges,
            place: Place::Nowhere,
        });
    }
    if levels == 0 {
        return Err(Refusal {
            reason: Reason::Denominator,
            place: Place::Nowhere,
        });
    }
    if levels > MAX_LEVELS {
        return Err(Refusal {
            reason: Reason::Denominator,
            place: Place::Nowhere,
        });
    }
    let denominator = body + 4;
    Ok(LongSheet {
        strains: front.strains,
        pairs: front.pairs,
        distances,
        parents: front.parents,
        end,
        levels,
        edges,
        denominator,
        numerators: denominator + 4 * levels,
    })
}

// What a long sheet holds: 1 to 12, 16, 26, the first that applies.
pub fn read_long(s: &[u8]) -> Result<LongSheet, Refusal>
    ensures { LongAnswer s.now result }
{
    let laid = long_records::long_layout(s)?;
    held(s, laid.starts[1], laid.starts[2])
}
