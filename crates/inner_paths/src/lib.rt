// The paths between the inner vertices of an allowed tree, each from one that is an edge shorter, and by them the path of any two strains: an
// edge from each to its parent, and what lies between the parents. So all paths together are quadratic in the strains.
#![tactic(auto)]

ghost use Rattle.std.specs.Prelude.{◌≡◌, ◌+◌, ◌-◌, ◌≤◌, ◌<◌, pos, length};
ghost use Rattle.exact.specs.LeastSquares.{path};
ghost use Rattle.exact.specs.Table.{table, entry_of};
ghost use Rattle.tree_theory.specs.Chain.{parent_of, parts_pair};
ghost use Rattle.inner_paths.specs.Between.{Lengthened, Between, apart_in, spots};

// The pairs of 62 vertices: no more are inner.
pub const SPOTS: usize = 1_891;

// What the table says of two vertices, counted from the root down.
fn apart(between: &[i64; SPOTS], p: usize, q: usize) -> i64
    requires { (length between.now ≡ spots) × (p < 62) × (q < 62) }
    ensures { result ≡ apart_in between.now p q }
{
    if p == q {
        return 0;
    }
    between[matrix::pair_place(p, q)]
}

// One vertex more: the path to each vertex above it in number is by its edge longer than its parent's.
fn reach(n: usize, edges: usize, parents: &[u8], x: &[i64], a: usize, between: &mut [i64; SPOTS])
    requires lengthened { Lengthened n edges parents.now x.now }
    requires n_le_a { (n ≤ a) × (a < edges) }
    requires between { Between edges (parent_of parents.now) (entry_of x.now) (edges - a) between.old }
    ensures { Between edges (parent_of parents.now) (entry_of x.now) (edges - a + 1) between.new }
{
    let step = x[a];
    let own = edges - a;
    let above = edges - parents[a] as usize;
    for b in 0..own {
        let far = step + apart(between, above, b);
        between[matrix::place(b, own)] = far;
    }
}

// The paths between all inner vertices, from the root down, in a lent table.
pub fn fill_paths(n: usize, edges: usize, parents: &[u8], x: &[i64], between: &mut [i64; SPOTS])
    requires lengthened { Lengthened n edges parents.now x.now }
    requires between_len { length between.old ≡ spots }
    ensures { Between edges (parent_of parents.now) (entry_of x.now) (edges - n + 1) between.new }
{
    for a in (n..edges).rev() {
        reach(n, edges, parents, x, a, between);
    }
}

// The same in a table of its own.
pub fn inner_paths(n: usize, edges: usize, parents: &[u8], x: &[i64]) -> [i64; SPOTS]
    requires { Lengthened n edges parents.now x.now }
    ensures { Between edges (parent_of parents.now) (entry_of x.now) (edges - n + 1) result }
{
    let mut between: [i64; SPOTS] = arrays::filled(0);
    fill_paths(n, edges, parents, x, &mut between);
    between
}

// The path of two strains.
pub fn path(
    n: usize,
    edges: usize,
    parents: &[u8],
    x: &[i64],
    between: &[i64; SPOTS],
    i: usize,
    j: usize,
) -> i64
    requires lengthened { Lengthened n edges parents.now x.now }
    requires between { Between edges (parent_of parents.now) (entry_of x.now) (edges - n + 1) between.now }
    requires i_lt_j { (i < j) × (j < n) }
    ensures { result ≡ path edges (parts_pair (parent_of parents.now)) (entry_of x.now) (i, j) }
{
    let first = edges - parents[i] as usize;
    let second = edges - parents[j] as usize;
    x[i] + x[j] + apart(between, first, second)
}
