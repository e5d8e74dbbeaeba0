// For each edge of an allowed tree the paths of the pairs that it parts, added up. A pass up the tree tells of each vertex how many strains are
// below it and the paths from them up to it; a pass down tells of each vertex the paths from it to all strains. A path that goes over an edge is a
// path up to the edge's lower end and a path on from there, so both passes together are linear in the strains.
#![tactic(auto)]

ghost use Rattle.std.specs.Prelude.{◌≡◌, ◌≤◌, ◌<◌, ◌^◌, pos, nat_abs, ◌+ℤ◌, ◌-ℤ◌, ◌*ℤ◌};
ghost use Rattle.exact.specs.Table.{table, entry_of};
ghost use Rattle.matrix.specs.Limits.{max_strains};
ghost use Rattle.tree_theory.specs.Limits.{max_vertices};
ghost use Rattle.tree_theory.specs.Chain.{parent_of};
ghost use Rattle.inner_paths.specs.Between.{Lengthened};
ghost use Rattle.path_sums.specs.Sums.{Alone, Gathered, PathSums};

use tree::Tree;

// One for each strain, before any has gone up.
fn strains_alone(n: usize, sizes: &mut [i64; Tree::MAX_VERTICES])
    requires n_le_max_strains { n ≤ max_strains }
    requires sizes_value { sizes.old ≡ table max_vertices (λ _. pos 0) }
    ensures { Alone n sizes.new }
{
    for i in 0..n {
        sizes[i] = 1;
    }
}

// The paths up to a vertex once those of a child's strains have come, each longer by the child's edge.
fn come_up(there: i64, way: i64, size: i64, step: i64) -> i64
    requires { (nat_abs (there +ℤ way) < 2 ^ 63) × (nat_abs (size *ℤ step) < 2 ^ 63) × (nat_abs (there +ℤ way +ℤ size *ℤ step) < 2 ^ 63) }
    ensures { result ≡ there +ℤ way +ℤ size *ℤ step }
{
    there + way + size * step
}

// Up the tree: when the turn of a vertex comes, all that is below it has come.
fn gather(
    n: usize,
    edges: usize,
    parents: &[u8],
    x: &[i64],
    sizes: &mut [i64; Tree::MAX_VERTICES],
    ways: &mut [i64; Tree::MAX_VERTICES],
)
    requires lengthened { Lengthened n edges parents.now x.now }
    requires alone { Alone n sizes.old }
    requires ways_value { ways.old ≡ table max_vertices (λ _. pos 0) }
    ensures { Gathered n edges (parent_of parents.now) (entry_of x.now) sizes.new ways.new }
{
    for v in 0..edges {
        let m = parents[v] as usize;
        let size = sizes[v];
        sizes[m] = sizes[m] + size;
        ways[m] = come_up(ways[m], ways[v], size, x[v]);
    }
}

// The paths from a vertex to all strains, by those from its parent: over its edge they are longer to the strains beyond it, and shorter to
// those below.
fn one_down(above: i64, step: i64, all: i64, size: i64) -> i64
    requires { (nat_abs (pos 2 *ℤ size) < 2 ^ 63) × (nat_abs (all -ℤ pos 2 *ℤ size) < 2 ^ 63) × (nat_abs (step *ℤ (all -ℤ pos 2 *ℤ size)) < 2 ^ 63) × (nat_abs (above +ℤ step *ℤ (all -ℤ pos 2 *ℤ size)) < 2 ^ 63) }
    ensures { result ≡ above +ℤ step *ℤ (all -ℤ pos 2 *ℤ size) }
{
    above + step * (all - 2 * size)
}

// The paths between the strains below a vertex and the others: each of the ways up to it once for every strain beyond, and each of the ways on
// from it once for every strain below.
fn across(all: i64, size: i64, way: i64, far: i64) -> i64
    requires size_bound { (nat_abs (all -ℤ size) < 2 ^ 63) × (nat_abs (far -ℤ way) < 2 ^ 63) }
    requires way_bound { (nat_abs ((all -ℤ size) *ℤ way) < 2 ^ 63) × (nat_abs (size *ℤ (far -ℤ way)) < 2 ^ 63) }
    requires way_bound_2 { nat_abs ((all -ℤ size) *ℤ way +ℤ size *ℤ (far -ℤ way)) < 2 ^ 63 }
    ensures { result ≡ (all -ℤ size) *ℤ way +ℤ size *ℤ (far -ℤ way) }
{
    (all - size) * way + size * (far - way)
}

// Down the tree, in place: a vertex has its parent's paths, which came before, and then its edge's sum stands where its size did.
fn spread(
    n: usize,
    edges: usize,
    parents: &[u8],
    x: &[i64],
    sizes: &mut [i64; Tree::MAX_VERTICES],
    ways: &mut [i64; Tree::MAX_VERTICES],
)
    requires lengthened { Lengthened n edges parents.now x.now }
    requires gathered { Gathered n edges (parent_of parents.now) (entry_of x.now) sizes.old ways.old }
    ensures { PathSums n edges (parent_of parents.now) (entry_of x.now) sizes.new }
{
    let all = n as i64;
    for w in (0..edges).rev() {
        let size = sizes[w];
        let way = ways[w];
        // The parent had its turn, or is the root: its paths to all strains stand there now.
        let far = one_down(ways[parents[w] as usize], x[w], all, size);
        ways[w] = far;
        sizes[w] = across(all, size, way, far);
    }
}

// For each edge the paths of the pairs of strains that it parts, added up; what is behind the edges is left over from the work.
pub fn path_sums(
    n: usize,
    edges: usize,
    parents: &[u8],
    x: &[i64],
    sums: &mut [i64; Tree::MAX_VERTICES],
)
    requires lengthened { Lengthened n edges parents.now x.now }
    requires sums_value { sums.old ≡ table max_vertices (λ _. pos 0) }
    ensures { PathSums n edges (parent_of parents.now) (entry_of x.now) sums.new }
{
    strains_alone(n, sums);
    let mut ways: [i64; Tree::MAX_VERTICES] = arrays::filled(0);
    gather(n, edges, parents, x, sums, &mut ways);
    spread(n, edges, parents, x, sums, &mut ways);
}
