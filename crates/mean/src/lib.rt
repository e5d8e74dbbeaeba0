// The mean square of a fit: what F is divided by, or that there is nothing to divide by or a pair is missing.
#![tactic(auto)]

ghost use Rattle.std.specs.Prelude.{◌≡◌, ◌≤◌};
ghost use Rattle.matrix.specs.Limits.{max_pairs};
ghost use Rattle.matrix.specs.Proper.{Proper};
ghost use Rattle.mean.specs.Mean.{times, mean_of};

// The second number of the mean square, where it has one; the first is F.
pub type Mean = Option<i64>;

// d times what is left, or none.
fn times(d: u32, left: usize) -> Mean
    requires { left ≤ max_pairs }
    ensures { result ≡ times d left }
{
    if left == 0 {
        return None;
    }
    Some(d as i64 * left as i64)
}

// What F is over in the mean square, for a matrix that passes and a number of edges, over the denominator d.
pub fn mean_over(n: u32, distances: &[u16], edges: usize, d: u32) -> Mean
    requires { Proper n distances.now }
    ensures { result ≡ mean_of n distances.now edges d }
{
    if matrix::some_missing(distances) {
        return None;
    }
    let pairs = matrix::pair_count(n) as usize;
    times(d, pairs.saturating_sub(edges))
}
