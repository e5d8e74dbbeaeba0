// The digits of a long sheet's lengths, read from its bytes: those of D into a table of their own, those of the numerators into a lent one.
#![tactic(auto)]

ghost use Rattle.std.specs.Prelude.{◌≡◌, ◌++◌, ◌+◌, ◌*◌, ◌≤◌, pos, length, drop};
ghost use Rattle.exact.specs.Table.{table, padded};
ghost use Rattle.long_theory.specs.Long.{max_levels};
ghost use Rattle.long_decoding.specs.Digits.{max_digits, natural_at, signed_at};

use long_lengths::MAX_LEVELS;
use tree::Tree;

// As many digits as the most edges have.
pub const MAX_DIGITS: usize = MAX_LEVELS * Tree::MAX_EDGES;

// The digits of D, which start at `at`, then zeros.
pub fn denominator_digits(s: &[u8], at: usize, levels: usize) -> [u32; MAX_LEVELS]
    requires { (levels ≤ max_levels) × (at + 4 * levels ≤ length s.now) }
    ensures { result ≡ padded 0 max_levels levels (natural_at s.now at) }
{
    let mut held: [u32; MAX_LEVELS] = arrays::filled(0);
    for k in 0..levels {
        held[k] = endian::u32_at(s, at + 4 * k);
    }
    held
}

// So many digits of numerators, which start at `at`, into the front of a table. What stands behind them there stays.
pub fn digits_into(s: &[u8], at: usize, count: usize, into: &mut [i64])
    requires { (count ≤ length into.old) × (at + 4 * count ≤ length s.now) }
    ensures { into.new ≡ table count (signed_at s.now at) ++ drop count into.old }
{
    for k in 0..count {
        let x = endian::i32_at(s, at + 4 * k);
        into[k] = x;
    }
}
