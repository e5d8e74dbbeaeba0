// The line of a pair (RULES, The pairs of a fit), written into a lent buffer.
#![tactic(auto)]

ghost use Rattle.std.specs.Prelude.{[], ◌∷◌, ◌++◌, ◌+◌, ◌≤◌, pos, nat_abs, ◌-ℤ◌, ◌*ℤ◌, length, get_or};
ghost use Rattle.matrix.specs.Place.{is_measured, known};
ghost use Rattle.writing.specs.Text.{Wrote};
ghost use Rattle.lines.specs.Lines.{end, fields};
ghost use Rattle.pair_line.specs.Line.{dash, pair_head, pair_line, widest_pair, name_at, NameThere, farthest};

use matrix::Matrix;

// `pair` and the names of the two strains, which start with their length bytes at two places of the names.
fn put_head(text: &mut [u8], at: usize, names: &[u8], first: usize, second: usize) -> usize
    requires first_in_bounds { (first + 1 + get_or names.now first 0 ≤ length names.now) × (second + 1 + get_or names.now second 0 ≤ length names.now) }
    requires second_in_bounds { at + 6 + get_or names.now first 0 + get_or names.now second 0 ≤ length text.old }
    ensures { Wrote text.old text.new at (pair_head (name_at names.now first) (name_at names.now second)) result }
{
    let one = writing::put_word(text, at, b"pair ");
    let space = newick_put::put_name(names, first, text, one);
    let two = writing::put(text, space, b' ');
    newick_put::put_name(names, second, text, two)
}

// What stands behind the names of a pair that was measured: its distance, its two paths, its remainder.
fn put_measured(text: &mut [u8], at: usize, far: u16, d: u32, p: i64, q: i64) -> usize
    requires p_bound { nat_abs p ≤ farthest }
    requires at_in_bounds { at + 89 ≤ length text.old }
    ensures { Wrote text.old text.new at (fields (pos far ∷ p ∷ q ∷ (pos d *ℤ pos far -ℤ p) ∷ []) ++ end) result }
{
    let distance = far as i64;
    let values = [distance, p, q, d as i64 * distance - p];
    lines::line(text, at, &[], &values)
}

// The same of a pair that was not: dashes for the distance and the remainder.
fn put_unmeasured(text: &mut [u8], at: usize, p: i64, q: i64) -> usize
    requires { at + 49 ≤ length text.old }
    ensures { Wrote text.old text.new at (dash ++ (fields (p ∷ q ∷ []) ++ (dash ++ end))) result }
{
    let one = writing::put_word(text, at, b" - ");
    let space = writing::put_signed(text, one, p);
    let two = writing::put(text, space, b' ');
    let last = writing::put_signed(text, two, q);
    writing::put_word(text, last, b" -\n")
}

// The line of a pair.
pub fn pair_line(
    text: &mut [u8],
    at: usize,
    names: &[u8],
    first: usize,
    second: usize,
    far: u16,
    d: u32,
    p: i64,
    q: i64,
) -> usize
    requires name_there { NameThere names.now first × NameThere names.now second }
    requires p_bound { nat_abs p ≤ farthest }
    requires widest_pair_in_bounds { at + widest_pair ≤ length text.old }
    ensures { Wrote text.old text.new at (pair_line (name_at names.now first) (name_at names.now second) (is_measured far) (pos (known far)) p q (pos d *ℤ pos (known far) -ℤ p)) result }
{
    let next = put_head(text, at, names, first, second);
    if far == Matrix::MISSING {
        return put_unmeasured(text, next, p, q);
    }
    put_measured(text, next, far, d, p, q)
}
