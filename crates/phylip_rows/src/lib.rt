// The rows of a square matrix in a text: names and cells, read in one pass into a grid of entries and a table of names. Row i has its
// entries from 64·i on, strain i its name from 10·i on.
#![tactic(auto)]

ghost use Rattle.std.specs.Prelude.{◌≡◌, ◌+◌, ◌*◌, ◌≤◌, length};
ghost use Rattle.matrix.specs.Limits.{max_strains};
ghost use Rattle.phylip_text.specs.Form.{name_out, name_size};
ghost use Rattle.phylip_rows.specs.Rows.{NameRead, RowIs, RowsRead};

use cells::RowRead;
use matrix::Matrix;

// How many bytes a name has.
pub const NAME: usize = 10;

// Whether a byte is in no name.
pub fn name_out(byte: u8) -> bool
    ensures { result ≡ name_out byte }
{
    if byte < 32 {
        return true;
    }
    byte > 126
}

// The name at a place, copied from `base` on; whether it is none.
fn name(text: &[u8], at: usize, base: usize, names: &mut [u8]) -> bool
    requires { (at ≤ length text.now) × (base + name_size ≤ length names.old) }
    ensures { NameRead text.now at base names.old names.new result }
{
    for k in 0..NAME {
        let byte = digits::byte_at(text, at + k);
        if name_out(byte) {
            return true;
        }
        names[base + k] = byte;
    }
    false
}

// The row at a place, which is row i of n: its name, its cells, its end; none where it is not of the form.
fn row(
    text: &[u8],
    at: usize,
    n: usize,
    i: usize,
    grid: &mut [u16],
    names: &mut [u8],
) -> Option<RowRead>
    requires { (at ≤ length text.now) × (n ≤ max_strains) × (max_strains * i + n ≤ length grid.old) × (name_size * i + name_size ≤ length names.old) }
    ensures { RowIs text.now at n i grid.old grid.new names.old names.new result }
{
    if name(text, at, NAME * i, names) {
        return None;
    }
    let read = cells::cells(text, at + NAME, n, Matrix::MAX_STRAINS * i, grid)?;
    match phylip_lines::line_end(text, read.end) {
        Ok(end) => Some(RowRead { end, out: read.out }),
        Err(_) => None,
    }
}

// The n rows at a place: whether a decimal is out; none where they are not of the form, or something follows them.
pub fn rows(text: &[u8], at: usize, n: usize, grid: &mut [u16], names: &mut [u8]) -> Option<bool>
    requires { (at ≤ length text.now) × (n ≤ max_strains) × (max_strains * n ≤ length grid.old) × (name_size * n ≤ length names.old) }
    ensures { RowsRead text.now at n grid.old grid.new names.old names.new result }
{
    let mut end = at;
    let mut out = false;
    for i in 0..n {
        let read = row(text, end, n, i, grid, names)?;
        out |= read.out;
        end = read.end;
    }
    if end != text.len() {
        return None;
    }
    Some(out)
}
