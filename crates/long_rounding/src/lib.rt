// The thousandths of a length whose denominator and numerator are written in digits, found by halving.
#![tactic(auto)]

ghost use Rattle.std.specs.Prelude.{◌≡◌, ◌≤◌, pos, nat_abs};
ghost use Rattle.exact.specs.Nearest.{nearest};
ghost use Rattle.long_digits.specs.Clamp.{clamp, most};
ghost use Rattle.long_theory.specs.Long.{long_denominator, long_numerator};
ghost use Rattle.long_lengths.specs.Edge.{LongEdge};
ghost use Rattle.long_rounding.specs.Ready.{LongNear, reach_of, Greatest};

// 2000·n - (2·(u - 10^11) - 1)·D, cut off: its sign.
fn reach(edges: usize, levels: usize, d: &[u32], digits: &[i64], v: usize, u: u64) -> i64
    requires long_edge { LongEdge edges levels d.now digits.now v }
    requires u_bound { u ≤ 200000000001 }
    ensures { result ≡ clamp most (reach_of (pos (long_denominator levels d.now)) (long_numerator levels edges digits.now v) u) }
{
    long_lengths::compare(
        edges,
        levels,
        d,
        digits,
        v,
        200_000_000_001 - 2 * (u as i64),
    )
}

// Where the search ends: the greatest u up to 2·10^11 whose reach is not negative.
fn greatest(edges: usize, levels: usize, d: &[u32], digits: &[i64], v: usize) -> u64
    requires long_edge { LongEdge edges levels d.now digits.now v }
    requires long_near { LongNear edges levels d.now digits.now v }
    ensures { Greatest (pos (long_denominator levels d.now)) (long_numerator levels edges digits.now v) result }
{
    let mut low: u64 = 0;
    let mut high: u64 = 200_000_000_001;
    // Halving; no index is counted.
    while low + 1 < high {
        let mid = low + (high - low) / 2;
        if reach(edges, levels, d, digits, v, mid) < 0 {
            high = mid;
        } else {
            low = mid;
        }
    }
    low
}

// The whole number nearest 1000·n/D, a tie going to the even neighbour. The search is for the greatest m with 2000·n ≥ (2·m - 1)·D, by halving;
// it is counted from -10^11.
pub fn long_thousandths(edges: usize, levels: usize, d: &[u32], digits: &[i64], v: usize) -> i64
    requires long_edge { LongEdge edges levels d.now digits.now v }
    requires long_near { LongNear edges levels d.now digits.now v }
    ensures { (result ≡ nearest (long_denominator levels d.now) (long_numerator levels edges digits.now v)) × (nat_abs result ≤ 100000000001) }
{
    let u = greatest(edges, levels, d, digits, v);
    if u % 2 == 0 {
        return u as i64 - 100_000_000_000;
    }
    if reach(edges, levels, d, digits, v, u) == 0 {
        return u as i64 - 100_000_000_001;
    }
    u as i64 - 100_000_000_000
}
