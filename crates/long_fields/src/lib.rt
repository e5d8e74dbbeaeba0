// The fields of a long print: numbers in digits and numbers of 64 bits, each behind a space, and the line of an edge.
#![tactic(auto)]

ghost use Rattle.std.specs.Prelude.{[], ◌∷◌, ℕ, ◌+◌, ◌≤◌, ◌<◌, pos, nat_abs, length, get_or};
ghost use Rattle.exact.specs.Table.{entry_of};
ghost use Rattle.writing.specs.Text.{Wrote};
ghost use Rattle.lines.specs.Lines.{line_by, edge_word};
ghost use Rattle.long_digits.specs.Digits.{base, natural};
ghost use Rattle.long_theory.specs.Long.{max_levels, long_numerator, LongProper};
ghost use Rattle.long_carrying.specs.Carried.{wide_size};
ghost use Rattle.long_lengths.specs.Edge.{LongRow};
ghost use Rattle.long_writing.specs.Decimals.{long_signed};
ghost use Rattle.long_fields.specs.Fields.{long_by, widest_field, widest_edge, Magnitudes};

use long_carrying::WIDE;

// A space, and the number that so many digits write, with a minus where it is negative.
pub fn field(text: &mut [u8], at: usize, negative: bool, levels: usize, digits: &[u32]) -> usize
    requires levels_le_wide_size { (levels ≤ wide_size) × (levels ≤ length digits.now) × (at + widest_field ≤ length text.old) }
    requires by_index { (k : ℕ) → get_or digits.now k 0 < base }
    ensures { Wrote text.old text.new at (32 ∷ long_by negative (natural levels (λ k. get_or digits.now k 0))) result }
{
    let number = writing::put(text, at, b' ');
    if negative {
        let behind = writing::put(text, number, b'-');
        return long_writing::put_digits(text, behind, levels, digits);
    }
    long_writing::put_digits(text, number, levels, digits)
}

// A space, and a number of 64 bits.
pub fn short_field(text: &mut [u8], at: usize, z: i64) -> usize
    requires { at + 22 ≤ length text.old }
    ensures { Wrote text.old text.new at (32 ∷ long_signed z) result }
{
    let number = writing::put(text, at, b' ');
    writing::put_signed(text, number, z)
}

// The digits of an edge's numerator without their sign, then zeros.
fn magnitudes(edges: usize, levels: usize, digits: &[i64], v: usize) -> [u32; WIDE]
    requires long_row { LongRow edges levels digits.now v }
    requires levels_le_max_levels { (levels ≤ max_levels) × ((i : ℕ) → nat_abs (entry_of digits.now i) < base) }
    ensures { Magnitudes levels edges digits.now v result }
{
    let mut held: [u32; WIDE] = arrays::filled(0);
    for k in 0..levels {
        held[k] = arithmetic::magnitude(digits[k * edges + v]) as u32;
    }
    held
}

// A space, and the numerator of an edge.
fn numerator_field(
    text: &mut [u8],
    at: usize,
    edges: usize,
    d: &[u32],
    digits: &[i64],
    v: usize,
) -> usize
    requires v_lt_edges { (v < edges) × (at + widest_field ≤ length text.old) }
    requires long_proper { LongProper edges d.now digits.now }
    ensures { Wrote text.old text.new at (32 ∷ long_signed (long_numerator (length d.now) edges digits.now v)) result }
{
    let levels = d.len();
    let sign = long_lengths::compare(edges, levels, d, digits, v, 0);
    let held = magnitudes(edges, levels, digits, v);
    field(text, at, sign < 0, levels, &held)
}

// The line of an edge: the edge, n, m.
pub fn edge_line(
    text: &mut [u8],
    at: usize,
    edges: usize,
    d: &[u32],
    digits: &[i64],
    v: usize,
    m: i64,
) -> usize
    requires v_lt_edges { (v < edges) × (at + widest_edge ≤ length text.old) }
    requires long_proper { LongProper edges d.now digits.now }
    ensures { Wrote text.old text.new at (line_by long_signed edge_word (pos v ∷ long_numerator (length d.now) edges digits.now v ∷ m ∷ [])) result }
{
    let next = writing::put_word(text, at, b"edge");
    let next = short_field(text, next, v as i64);
    let next = numerator_field(text, next, edges, d, digits, v);
    let next = short_field(text, next, m);
    writing::put(text, next, b'\n')
}
