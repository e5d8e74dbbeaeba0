// The lengths of RULES, Resolved trees on plain numbers, in lowest terms: an outer and an inner edge of a resolved
// tree, from the sizes of the subtrees at its ends and the split sums of the edges around it.
#![tactic(auto)]

ghost use Rattle.std.specs.Prelude.{◌≡◌, ◌≤◌, nat_abs};
ghost use Rattle.exact.specs.Fraction.{Lowest, ◌over◌};
ghost use Rattle.direct_theory.specs.Splits.{twice, end_of, outer_top, outer_bottom, inner_top, inner_bottom, Sized, max_split, max_twice, max_end};

use arithmetic::Ratio;

// Twice the distances between two directions at a vertex of degree three, whose split sums are x and y;
// z is the third's.
fn twice(x: i64, y: i64, z: i64) -> i64
    requires { (nat_abs x ≤ max_split) × (nat_abs y ≤ max_split) × (nat_abs z ≤ max_split) }
    ensures { (result ≡ twice x y z) × (nat_abs result ≤ max_twice) }
{
    x + y - z
}

// An outer edge: b·S(iA) + a·S(iB) - S(AB) over 2ab, each sum taken twice.
pub fn outer(a: i64, b: i64, t: i64, u: i64, v: i64) -> Ratio
    requires sized { Sized a × Sized b }
    requires t_bound { (nat_abs t ≤ max_split) × (nat_abs u ≤ max_split) × (nat_abs v ≤ max_split) }
    ensures { Lowest (outer_top a b t u v over outer_bottom a b) result.top result.bottom }
{
    let near = b * twice(t, u, v);
    let far = a * twice(t, v, u);
    arithmetic::lowest(near + far - twice(u, v, t), (4 * (a * b)) as u64)
}

// One end of an inner edge: a and b strains stand there, with the split sums u and v; w is the edge's.
fn end_of(a: i64, b: i64, g: i64, u: i64, v: i64, w: i64) -> i64
    requires sized { Sized a × Sized b × (nat_abs g ≤ 16384) }
    requires u_bound { (nat_abs u ≤ max_split) × (nat_abs v ≤ max_split) × (nat_abs w ≤ max_split) }
    ensures { (result ≡ end_of a b g u v w) × (nat_abs result ≤ max_end) }
{
    let left = b * b * twice(u, w, v);
    let right = a * a * twice(v, w, u);
    left + right - g * twice(u, v, w)
}

// An inner edge: cd·(the end with A and B) + ab·(the end with C and D), over 4abcd(a + b)(c + d).
pub fn inner(a: i64, b: i64, c: i64, d: i64, t: i64, u: i64, v: i64, x: i64, y: i64) -> Ratio
    requires sized { Sized a × Sized b × Sized c × Sized d }
    requires t_bound { (nat_abs t ≤ max_split) × (nat_abs u ≤ max_split) × (nat_abs v ≤ max_split) × (nat_abs x ≤ max_split) × (nat_abs y ≤ max_split) }
    ensures { Lowest (inner_top a b c d t u v x y over inner_bottom a b c d) result.top result.bottom }
{
    let ab = a * b;
    let cd = c * d;
    let g = (a + b) * (c + d);
    let here = cd * end_of(a, b, g, u, v, t);
    let there = ab * end_of(c, d, g, x, y, t);
    arithmetic::lowest(here + there, (4 * (ab * cd) * g) as u64)
}
