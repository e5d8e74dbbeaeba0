// The lines of a long print, but for those of the edges: fit or fit0, length, square, mean.
#![tactic(auto)]

ghost use Rattle.std.specs.Prelude.{◌≡◌, [], ◌∷◌, ℕ, ◌+◌, ◌≤◌, ◌<◌, pos, IfSome, option_copied, length, get_or};
ghost use Rattle.std.specs.Int.Signed.{lt_z};
ghost use Rattle.tree_theory.specs.Limits.{max_edges};
ghost use Rattle.writing.specs.Text.{Wrote};
ghost use Rattle.lines.specs.Lines.{line_by, mean_line_by, fit_word, length_word, square_word};
ghost use Rattle.long_digits.specs.Digits.{natural};
ghost use Rattle.long_theory.specs.Long.{long_denominator};
ghost use Rattle.long_writing.specs.Decimals.{long_signed};
ghost use Rattle.long_lines.specs.LongLines.{widest_line, Digits, wide_of, mean_by};

use verdict::Rule;

// The word of the rule, at the front of the buffer.
fn rule_word(text: &mut [u8], rule: Rule) -> usize
    requires room { 4 ≤ length text.old }
    ensures { Wrote text.old text.new 0 (fit_word rule) result }
{
    match rule {
        Rule::Plain => writing::put_word(text, 0, b"fit"),
        Rule::Drawable => writing::put_word(text, 0, b"fit0"),
    }
}

// The first line of the print, at the front of the buffer: N, K, D.
pub fn fit_line(text: &mut [u8], rule: Rule, n: u32, k: usize, d: &[u32]) -> usize
    requires k_le_max_edges { (k ≤ max_edges) × Digits (length d.now) d.now }
    requires room { widest_line ≤ length text.old }
    ensures { Wrote text.old text.new 0 (line_by long_signed (fit_word rule) (pos n ∷ pos k ∷ pos (long_denominator (length d.now) d.now) ∷ [])) result }
{
    let next = rule_word(text, rule);
    let next = long_fields::short_field(text, next, n as i64);
    let next = long_fields::short_field(text, next, k as i64);
    let next = long_fields::field(text, next, false, d.len(), d);
    writing::put(text, next, b'\n')
}

// The line of the tree length's numerator.
pub fn length_line(
    text: &mut [u8],
    at: usize,
    negative: bool,
    levels: usize,
    digits: &[u32],
) -> usize
    requires digits { Digits levels digits.now × (negative ≡ lt_z (wide_of negative (natural levels (λ k. get_or digits.now k 0))) (pos 0)) }
    requires room { at + widest_line ≤ length text.old }
    ensures { Wrote text.old text.new at (line_by long_signed length_word (wide_of negative (natural levels (λ k. get_or digits.now k 0)) ∷ [])) result }
{
    let next = writing::put_word(text, at, b"length");
    let next = long_fields::field(text, next, negative, levels, digits);
    writing::put(text, next, b'\n')
}

// The line of F, R, H.
pub fn square_line(text: &mut [u8], at: usize, levels: usize, f: &[u32], r: i64, h: i64) -> usize
    requires digits { Digits levels f.now }
    requires room { at + widest_line ≤ length text.old }
    ensures { Wrote text.old text.new at (line_by long_signed square_word (pos (natural levels (λ k. get_or f.now k 0)) ∷ r ∷ h ∷ [])) result }
{
    let next = writing::put_word(text, at, b"square");
    let next = long_fields::field(text, next, false, levels, f);
    let next = long_fields::short_field(text, next, r);
    let next = long_fields::short_field(text, next, h);
    writing::put(text, next, b'\n')
}

// The line of the mean square: F and what it is over, or none.
pub fn mean_line(
    text: &mut [u8],
    at: usize,
    levels: usize,
    f: &[u32],
    over: Option<&[u32]>,
) -> usize
    requires digits { Digits levels f.now × IfSome (option_copied over) (λ o. Digits levels o) }
    requires room { at + widest_line ≤ length text.old }
    ensures { Wrote text.old text.new at (mean_line_by long_signed (pos (natural levels (λ k. get_or f.now k 0))) (mean_by levels (option_copied over.entry))) result }
{
    match over {
        None => writing::put_word(text, at, b"mean none\n"),
        Some(digits) => {
            let next = writing::put_word(text, at, b"mean");
            let next = long_fields::field(text, next, false, levels, f);
            let next = long_fields::field(text, next, false, levels, digits);
            writing::put(text, next, b'\n')
        }
    }
}
