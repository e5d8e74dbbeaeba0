// The square matrices of PHYLIP, read into lent buffers: the text is gone through and judged first, the buffers are filled after. A
// refusal leaves them as they were.
#![tactic(auto)]

ghost use Rattle.std.specs.Prelude.{◌≡◌, ◌*◌, ◌≤◌};
ghost use Rattle.exact.specs.Table.{table};
ghost use Rattle.matrix.specs.Limits.{max_strains};
ghost use Rattle.phylip_text.specs.Form.{name_size};
ghost use Rattle.phylip_text.specs.Tests.{room_out};
ghost use Rattle.phylip_read.specs.Answers.{ReadAnswer, NumberAnswer};

use matrix::Matrix;
use phylip_grid::GRID;
use phylip_rows::NAME;
use verdict::{Reason, Verdict};

// As many name bytes as the most strains have.
pub const MAX_NAMES: usize = NAME * Matrix::MAX_STRAINS;

// 15: whether there is room for other than the distances and the name bytes of n strains.
fn room_out(n: usize, distances: usize, names: usize) -> bool
    requires { n ≤ max_strains }
    ensures { result ≡ room_out n distances names }
{
    if distances as u64 != matrix::pair_count(n as u32) {
        return true;
    }
    names != NAME * n
}

// The matrix and the names of a text: 17, 6, 17, 18, 19, 15, the first that applies; a refusal leaves both buffers as they were.
pub fn read(text: &[u8], distances: &mut [u16], names: &mut [u8]) -> Verdict
    ensures { ReadAnswer text.now distances.old distances.new names.old names.new result }
{
    let mut grid: [u16; GRID] = arrays::filled(0);
    let mut held: [u8; MAX_NAMES] = arrays::filled(0);
    let n = phylip_survey::survey_text(text, &mut grid, &mut held)?;
    refusing::test(Reason::Buffer, room_out(n, distances.len(), names.len()))?;
    phylip_grid::take_distances(&grid, n, distances);
    let count = names.len();
    names.copy_from_slice(&held[..count]);
    Ok(())
}

// The same as a number, 0 where both buffers are filled. The crate phylip_read_c exports it to C.
pub fn phylip_read(text: &[u8], distances: &mut [u16], names: &mut [u8]) -> u32
    ensures { NumberAnswer text.now distances.old distances.new names.old names.new result }
{
    verdict::number(&read(text, distances, names))
}
