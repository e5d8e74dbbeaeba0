// The cells of a square matrix in a text, read in one pass: what is not of the form is found where it stands, and each cell is
// judged and kept as it is passed.
#![tactic(auto)]

ghost use Rattle.std.specs.Prelude.{◌≡◌, ◌&&◌, ◌+◌, ◌-◌, ◌≤◌, eqb, ltb, length, drop, replicate, is_none, IfSome};
ghost use Rattle.matrix.specs.Limits.{max_strains};
ghost use Rattle.digits.specs.Digits.{most, at_most, number_from};
ghost use Rattle.cells.specs.Cell.{in_gap, gap, cell_size, decimal_size, is_missing, cell_out, cell_entry, units_out, decimal_out, decimal_entry};
ghost use Rattle.cells.specs.Row.{Read};

use matrix::Matrix;

// Whether a byte stands in a gap before another.
fn in_gap(byte: u8, next: u8) -> bool
    ensures { result ≡ in_gap byte next }
{
    if byte == 32 {
        return true;
    }
    if byte == 9 {
        return true;
    }
    if byte == 10 {
        return true;
    }
    if byte == 13 {
        return next == 10;
    }
    false
}

// Where the gap at a place ends.
fn gap_end(text: &[u8], at: usize) -> usize
    requires { at ≤ length text.now }
    ensures { (result ≡ at + gap (drop at text.now)) × (result ≤ length text.now) }
{
    for end in at..text.len() {
        if !in_gap(text[end], digits::byte_at(text, end + 1)) {
            return end;
        }
    }
    text.len()
}

// Whether `-1` stands at a place.
fn is_missing(text: &[u8], at: usize) -> bool
    requires { at ≤ length text.now }
    ensures { result ≡ is_missing (drop at text.now) }
{
    if digits::byte_at(text, at) != 45 {
        return false;
    }
    digits::byte_at(text, at + 1) == 49
}

// How many bytes the decimal at a place has.
fn decimal_size(text: &[u8], at: usize) -> usize
    requires { at ≤ length text.now }
    ensures { (result ≡ decimal_size (drop at text.now)) × (at + result ≤ length text.now) }
{
    let point = digits::digits_end(text, at);
    if point == at {
        return 0;
    }
    if digits::byte_at(text, point) != 46 {
        return point - at;
    }
    let end = digits::digits_end(text, point + 1);
    if end == point + 1 {
        return 0;
    }
    end - at
}

// How many bytes the cell at a place has.
fn cell_size(text: &[u8], at: usize) -> usize
    requires { at ≤ length text.now }
    ensures { (result ≡ cell_size (drop at text.now)) × (at + result ≤ length text.now) }
{
    if is_missing(text, at) {
        return 2;
    }
    decimal_size(text, at)
}

// A number of so many places with zeros behind it up to four places, cut.
fn scaled(number: u64, places: usize) -> u64
    requires { number ≤ most }
    ensures { (result ≡ at_most (number_from number (replicate (4 - places) 48))) × (result ≤ most) }
{
    let mut all = number;
    for k in places..4 {
        all = digits::longer(all, 48);
    }
    all
}

// A number of units and its places, as a matrix holds it; none where it is out.
fn judged(units: u64, places: usize) -> Option<u16>
    ensures { (is_none result ≡ units_out places units) × IfSome result (λ entry. entry ≡ units) }
{
    if places > 4 {
        return None;
    }
    if units > Matrix::MAX_DISTANCE as u64 {
        return None;
    }
    Some(units as u16)
}

// The decimal at a place.
fn decimal(text: &[u8], at: usize) -> Option<u16>
    requires { at ≤ length text.now }
    ensures { (is_none result ≡ decimal_out (drop at text.now)) × IfSome result (λ entry. entry ≡ decimal_entry (drop at text.now)) }
{
    let point = digits::digits_end(text, at);
    let whole = digits::number(text, 0, at, point);
    if digits::byte_at(text, point) != 46 {
        return judged(scaled(whole, 0), 0);
    }
    let end = digits::digits_end(text, point + 1);
    let all = digits::number(text, whole, point + 1, end);
    let places = end - (point + 1);
    judged(scaled(all, places), places)
}

// What a matrix holds of the cell at a place; none where it is out.
fn cell_at(text: &[u8], at: usize) -> Option<u16>
    requires { at ≤ length text.now }
    ensures { (is_none result ≡ cell_out (drop at text.now)) × IfSome result (λ entry. entry ≡ cell_entry (drop at text.now)) }
{
    if is_missing(text, at) {
        return Some(Matrix::MISSING);
    }
    decimal(text, at)
}

// What the cells of a row of the form came to: where they end, and whether one of them is out.
#[derive(Clone, Copy)]
pub struct RowRead {
    pub end: usize,
    pub out: bool,
}

// Whether a cell that is not the first stands right behind another.
fn touches(c: usize, end: usize, start: usize) -> bool
    ensures { result ≡ (ltb 0 c && eqb start end) }
{
    if c == 0 {
        return false;
    }
    start == end
}

// The n cells at a place, their entries from `base` on, 0 for one that is out; none where one is not of the form.
pub fn cells(text: &[u8], at: usize, n: usize, base: usize, entries: &mut [u16]) -> Option<RowRead>
    requires { (at ≤ length text.now) × (n ≤ max_strains) × (base + n ≤ length entries.old) }
    ensures { Read text.now at n base entries.old entries.new result }
{
    let mut end = at;
    let mut out = false;
    for c in 0..n {
        let start = gap_end(text, end);
        if touches(c, end, start) {
            return None;
        }
        let size = cell_size(text, start);
        if size == 0 {
            return None;
        }
        let found = cell_at(text, start);
        entries[base + c] = found.unwrap_or(0);
        out |= found.is_none();
        end = start + size;
    }
    Some(RowRead { end, out })
}
