// A number whose levels are of any size and sign, written again in digits: carries from the lowest level up.
#![tactic(auto)]

ghost use Rattle.std.specs.Prelude.{◌≡◌, ℕ, ◌≤◌, ◌<◌, pos, nat_abs, ◌+ℤ◌, ◌*ℤ◌, length};
ghost use Rattle.exact.specs.Order.{◌≤ᶻ◌};
ghost use Rattle.exact.specs.Table.{table, entry_of};
ghost use Rattle.long_digits.specs.Digits.{base, value};
ghost use Rattle.long_theory.specs.Long.{max_levels};
ghost use Rattle.long_carrying.specs.Carried.{wide_size, Parted, Carried};

// The digits of a number whose levels were carried: three more than it had levels.
pub const WIDE: usize = long_lengths::MAX_LEVELS + 3;

// A level that is parted: what it hands on, and what it keeps.
#[derive(Clone, Copy)]
struct Part {
    over: i64,
    kept: u32,
}

// A number lifted by 9.2·10^18, which is a multiple of a million, so that it is not negative.
fn lifted(z: i64) -> u64
    requires { nat_abs z ≤ 9100000000000000000 }
    ensures { pos result ≡ z +ℤ pos 9200000000000000000 }
{
    if z >= 0 {
        return 9_200_000_000_000_000_000 + arithmetic::magnitude(z);
    }
    9_200_000_000_000_000_000 - arithmetic::magnitude(z)
}

// What a level hands on to the next, and the digit that it keeps.
fn parted(z: i64) -> Part
    requires { nat_abs z ≤ 9100000000000000000 }
    ensures { Parted z result.over result.kept }
{
    let up = lifted(z);
    Part {
        over: (up / 1_000_000) as i64 - 9_200_000_000_000,
        kept: (up % 1_000_000) as u32,
    }
}

// The digits of a number that is not negative: three, then one for each level, then zeros.
pub fn carried(levels: usize, f: &[i64]) -> [u32; WIDE]
    requires levels_le_max_levels { (levels ≤ max_levels) × (levels ≤ length f.now) }
    requires by_index { (k : ℕ) → k < levels → nat_abs (entry_of f.now k) ≤ 9000000000000000000 }
    requires pos { pos 0 ≤ᶻ value levels (entry_of f.now) }
    ensures { Carried levels (entry_of f.now) result }
{
    let mut digits: [u32; WIDE] = arrays::filled(0);
    let mut carry: i64 = 0;
    for level in (0..levels).rev() {
        let part = parted(f[level] + carry);
        digits[level + 3] = part.kept;
        carry = part.over;
    }
    let top = carry as u64;
    digits[0] = (top / 1_000_000_000_000) as u32;
    digits[1] = (top / 1_000_000 % 1_000_000) as u32;
    digits[2] = (top % 1_000_000) as u32;
    digits
}
