// The text of a square matrix, written into a buffer piece by piece: cells, rows, the whole. Nothing is tested here.
#![tactic(auto)]

ghost use Rattle.std.specs.Prelude.{◌≡◌, ◌+◌, ◌*◌, ◌≤◌, ◌<◌, length};
ghost use Rattle.matrix.specs.Limits.{max_strains};
ghost use Rattle.matrix.specs.Place.{pair_count};
ghost use Rattle.writing.specs.Text.{Wrote};
ghost use Rattle.pieces.specs.Pieces.{pieces};
ghost use Rattle.phylip_text.specs.Form.{name_size};
ghost use Rattle.phylip_text.specs.Text.{cell_written, value_at, row_written, text_of, widest_row, widest_text};

use matrix::Matrix;

// A cell, with the space before it.
fn put_cell(text: &mut [u8], at: usize, units: u16) -> usize
    requires { at + 7 ≤ length text.old }
    ensures { Wrote text.old text.new at (cell_written units) result }
{
    if units == Matrix::MISSING {
        return writing::put_word(text, at, b" -1");
    }
    let cell = [
        b' ',
        b'0' + (units / 10000) as u8,
        b'.',
        b'0' + (units / 1000 % 10) as u8,
        b'0' + (units / 100 % 10) as u8,
        b'0' + (units / 10 % 10) as u8,
        b'0' + (units % 10) as u8,
    ];
    writing::put_word(text, at, &cell)
}

// What stands in row i and column j.
fn value(distances: &[u16], n: usize, i: usize, j: usize) -> u16
    requires { (i < n) × (j < n) × (n ≤ max_strains) × (length distances.now ≡ pair_count n) }
    ensures { result ≡ value_at distances.now i j }
{
    if i == j {
        return 0;
    }
    distances[matrix::pair_place(i, j)]
}

// The n cells of row i.
fn put_cells(text: &mut [u8], at: usize, n: usize, i: usize, distances: &[u16]) -> usize
    requires { (at + 7 * n ≤ length text.old) × (i < n) × (n ≤ max_strains) × (length distances.now ≡ pair_count n) }
    ensures { Wrote text.old text.new at (pieces n (λ j. cell_written (value_at distances.now i j))) result }
{
    let mut next = at;
    for j in 0..n {
        next = put_cell(text, next, value(distances, n, i, j));
    }
    next
}

// Row i.
fn put_row(text: &mut [u8], at: usize, n: usize, i: usize, distances: &[u16], names: &[u8]) -> usize
    requires { (at + widest_row ≤ length text.old) × (i < n) × (n ≤ max_strains) × (length distances.now ≡ pair_count n) × (length names.now ≡ name_size * n) }
    ensures { Wrote text.old text.new at (row_written n distances.now names.now i) result }
{
    let start = 10 * i;
    let end = start + 10;
    let cells = writing::put_word(text, at, &names[start..end]);
    let last = put_cells(text, cells, n, i, distances);
    writing::put(text, last, b'\n')
}

// All n rows.
fn put_rows(text: &mut [u8], at: usize, n: usize, distances: &[u16], names: &[u8]) -> usize
    requires { (at + widest_row * n ≤ length text.old) × (n ≤ max_strains) × (length distances.now ≡ pair_count n) × (length names.now ≡ name_size * n) }
    ensures { Wrote text.old text.new at (pieces n (row_written n distances.now names.now)) result }
{
    let mut next = at;
    for i in 0..n {
        next = put_row(text, next, n, i, distances, names);
    }
    next
}

// The whole text, at the front of a buffer that has room for it; the result is how many bytes it has.
pub fn put_text(text: &mut [u8], n: usize, distances: &[u16], names: &[u8]) -> usize
    requires { (widest_text ≤ length text.old) × (n ≤ max_strains) × (length distances.now ≡ pair_count n) × (length names.now ≡ name_size * n) }
    ensures { Wrote text.old text.new 0 (text_of n distances.now names.now) result }
{
    let count = writing::put_number(text, 0, n as u64);
    let rows = writing::put(text, count, b'\n');
    put_rows(text, rows, n, distances, names)
}
