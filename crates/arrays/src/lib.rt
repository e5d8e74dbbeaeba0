// Tables of any element and size: one value throughout, and entries from the front with one value behind them.
#![tactic(auto)]

ghost use Rattle.std.specs.Prelude.{◌≡◌, ◌≤◌, length, get_or};
ghost use Rattle.exact.specs.Table.{table};

// One value throughout, by a function: proofs then carry a name in place of every entry.
pub fn filled<T: Copy, const N: usize>(value: T) -> [T; N]
    ensures throughout { result ≡ table N (λ _. value) }
    ensures size { length result ≡ N }
{
    [value; N]
}

// Entries, and one value behind them.
pub fn padded<T: Copy, const N: usize>(entries: &[T], value: T) -> [T; N]
    requires { length entries.now ≤ N }
    ensures { result ≡ table N (λ k. get_or entries.now k value) }
{
    let mut kept = filled(value);
    kept[..entries.len()].copy_from_slice(entries);
    kept
}
