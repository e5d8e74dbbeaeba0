// Two sheets beside each other: whose tree length is less, exactly, and whether they have one matrix. Proved from the contracts
// of the rooms below and from the laws that they keep for customers.
#![tactic(auto)]

ghost use Rattle.std.specs.Prelude.{◌≡◌, ◌+◌, ◌*◌, ◌≤◌, pos, nat_abs, ◌*ℤ◌, length};
ghost use Rattle.std.specs.Int.Signed.{lt_z};
ghost use Rattle.verdict.specs.Answer.{pass};
ghost use Rattle.lengths.specs.Limits.{max_denominator};
ghost use Rattle.reporting.specs.Answers.{max_tree_length};
ghost use Rattle.records.specs.Form.{body_at};
ghost use Rattle.reading.specs.Tests.{sheet_tests};
ghost use Rattle.comparison.specs.Measured.{LengthOf, Measured};
ghost use Rattle.comparison.specs.Matrices.{SameRows, same_matrix};

use records::Layout;
use verdict::{Refusal, Rule};

// The tree length of a sheet, as a numerator over a denominator.
#[derive(Clone, Copy)]
pub struct TreeLength {
    pub numerator: i64,
    pub denominator: u32,
}

// The tree length of an accepted sheet, from its third record.
fn third_length(s: &[u8]) -> TreeLength
    requires { sheet_tests Rule.Plain s.now ≡ pass }
    ensures { LengthOf s.now result }
{
    let laid = records::records(s, 3).unwrap();
    let body = laid.starts[2] + Layout::HEAD;
    let edges = endian::u16_at(s, body + 4) as usize;
    let numerators = decoding::numerators(s, body + 6, edges);
    TreeLength {
        numerator: fit_numbers::total(edges, &numerators),
        denominator: endian::u32_at(s, body),
    }
}

// The same of any sheet, where it is accepted.
pub fn tree_length(s: &[u8]) -> Result<TreeLength, Refusal>
    ensures { Measured s.now result }
{
    sheet::sheet_judge(Rule::Plain, s)?;
    Ok(third_length(s))
}

// Whether a over d is less than b over e, exactly. The products can pass 2^63 and not 2^64.
pub fn less(a: i64, d: u32, b: i64, e: u32) -> bool
    requires { (nat_abs a ≤ max_tree_length) × (nat_abs b ≤ max_tree_length) × (d ≤ max_denominator) × (1 ≤ e) × (e ≤ max_denominator) }
    ensures { result ≡ lt_z (a *ℤ pos e) (b *ℤ pos d) }
{
    let left = arithmetic::magnitude(a) * e as u64;
    let right = arithmetic::magnitude(b) * d as u64;
    if a < 0 {
        if b < 0 {
            return right < left;
        }
        return true;
    }
    if b < 0 {
        return false;
    }
    left < right
}

// Whether the first so many distances of two sheets are the same, row by row.
fn same_rows(s: &[u8], t: &[u8], pairs: usize) -> bool
    requires { (body_at 0 + 2 + 2 * pairs ≤ length s.now) × (body_at 0 + 2 + 2 * pairs ≤ length t.now) }
    ensures { SameRows s.now t.now pairs result }
{
    for k in 0..pairs {
        let at = Layout::HEAD + 2 + 2 * k;
        if endian::u16_at(s, at) != endian::u16_at(t, at) {
            return false;
        }
    }
    true
}

// Whether two accepted sheets have one matrix.
pub fn same_matrix(s: &[u8], t: &[u8]) -> bool
    requires { (sheet_tests Rule.Plain s.now ≡ pass) × (sheet_tests Rule.Plain t.now ≡ pass) }
    ensures { result ≡ same_matrix s.now t.now }
{
    let n = endian::u16_at(s, Layout::HEAD);
    if endian::u16_at(t, Layout::HEAD) != n {
        return false;
    }
    same_rows(s, t, matrix::pair_count(n as u32) as usize)
}
