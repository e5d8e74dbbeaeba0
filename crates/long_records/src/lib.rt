// The form of a long sheet: the records of the matrix and of the tree as in any sheet, then the long lengths in place of the
// lengths, and nothing else.
#![tactic(auto)]

ghost use Rattle.records.specs.Laid.{Laid};
ghost use Rattle.long_records.specs.LongForm.{long_form_tests};

use long_lengths::MAX_LEVELS;
use matrix::Matrix;
use records::Layout;
use tree::Tree;
use verdict::{Place, Reason, Refusal};

// The most bytes of a long sheet: three heads, and the bodies of the largest matrix, tree and long lengths.
pub const MAX_LONG: usize = 3 * Layout::HEAD
    + (2 + 2 * Matrix::MAX_PAIRS)
    + (4 + Tree::MAX_EDGES)
    + (4 + 4 * MAX_LEVELS * (Tree::MAX_EDGES + 1));

// Where the three records of a long sheet start and the last one ends: 1; 2, 3, 4 for each record in turn; 5 at the first byte behind
// the last.
pub fn long_layout(s: &[u8]) -> Result<Layout, Refusal>
    ensures { Laid (long_form_tests s.now) 3 s.now result }
{
    if s.len() > MAX_LONG {
        return Err(Refusal {
            reason: Reason::SheetTooLong,
            place: Place::Nowhere,
        });
    }
    let laid = records::in_turn(s, 2)?;
    let at = laid.starts[2];
    records::one_record(s, at, Layout::LONG)?;
    let end = at + Layout::HEAD + endian::u32_at(s, at) as usize;
    if end < s.len() {
        return Err(Refusal {
            reason: Reason::BytesLeft,
            place: Place::Byte(end),
        });
    }
    let mut starts = laid.starts;
    starts[3] = end;
    Ok(Layout { starts })
}
