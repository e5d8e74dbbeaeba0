// A text that may be a square matrix of PHYLIP, gone through once: what it is refused for, or its cells in a grid and its names in a
// table.
#![tactic(auto)]

ghost use Rattle.std.specs.Prelude.{◌≡◌, ◌||◌, ◌*◌, ◌≤◌, ltb, length};
ghost use Rattle.matrix.specs.Limits.{min_strains, max_strains};
ghost use Rattle.phylip_text.specs.Form.{name_size};
ghost use Rattle.phylip_survey.specs.Survey.{HeadRead, Surveyed};

use matrix::Matrix;
use verdict::{Place, Reason, Refusal};

// The most bytes of a text.
pub const MAX_TEXT: usize = 65_536;

// 6: whether a count is not one of strains.
fn strains_out(count: u64) -> bool
    ensures { result ≡ (ltb count min_strains || ltb max_strains count) }
{
    if count < Matrix::MIN_STRAINS as u64 {
        return true;
    }
    count > Matrix::MAX_STRAINS as u64
}

// The refusal of a text that is not of the form.
const NOT_OF_THE_FORM: Refusal = Refusal {
    reason: Reason::Text,
    place: Place::Nowhere,
};

// What the first line shows: how many strains there are, and where the rows begin.
#[derive(Clone, Copy)]
struct Head {
    strains: usize,
    rows: usize,
}

// 17 for a text too long or without a count, 6, 17 for a first line that does not end.
fn read_head(text: &[u8]) -> Result<Head, Refusal>
    ensures { HeadRead text.now result }
{
    refusing::test(Reason::Text, text.len() > MAX_TEXT)?;
    let Ok(count) = phylip_lines::strain_count(text) else {
        return Err(NOT_OF_THE_FORM);
    };
    refusing::test(Reason::Strains, strains_out(count.strains))?;
    let Ok(rows) = phylip_lines::line_end(text, count.end) else {
        return Err(NOT_OF_THE_FORM);
    };
    Ok(Head {
        strains: count.strains as usize,
        rows,
    })
}

// How many strains the text has, or its refusal: 17, 6, 17, 18, 19, the first that applies. Where none does the grid has its cells, row i
// from 64·i on, and the table its names, that of strain i from 10·i on.
pub fn survey_text(text: &[u8], grid: &mut [u16], names: &mut [u8]) -> Result<usize, Refusal>
    requires { (max_strains * max_strains ≤ length grid.old) × (name_size * max_strains ≤ length names.old) }
    ensures { Surveyed text.now grid.old grid.new names.old names.new result }
{
    let head = read_head(text)?;
    let n = head.strains;
    let out = phylip_rows::rows(text, head.rows, n, grid, names).ok_or(NOT_OF_THE_FORM)?;
    refusing::test(Reason::Decimal, out)?;
    refusing::test(Reason::Halves, phylip_grid::halves_off(grid, n))?;
    Ok(n)
}
