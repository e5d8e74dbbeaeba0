// The strain tree: the parent of each vertex, and the tests of such a table. Vertices 0 to n-1 are the strains, the others are inner, and the last is the root. Edge v joins v
// to its parent, so there are as many edges as entries in the table.
#![tactic(auto)]

ghost use Rattle.std.specs.Prelude.{◌≡◌, ◌||◌, ℕ, ◌+◌, ◌≤◌, ◌<◌, ltb, pos, length, get_or};
ghost use Rattle.exact.specs.Table.{table};
ghost use Rattle.verdict.specs.Answer.{answer_of};
ghost use Rattle.verdict.specs.Table.{first};
ghost use Rattle.tree_theory.specs.Chain.{parent_of};
ghost use Rattle.tree_theory.specs.Limits.{max_edges, max_vertices};
ghost use Rattle.tree_theory.specs.Allowed.{children};
ghost use Rattle.tree_theory.specs.Tests.{tree_tests, parent_out, children_out};
ghost use Rattle.tree.specs.Kept.{TreeAnswer};

use matrix::Matrix;
use verdict::{Place, Reason, Refusal, Verdict};

// An allowed tree of n strains: its parents, then zeros.
#[derive(Clone, Copy)]
pub struct Tree {
    pub n: usize,
    pub edges: usize,
    pub parents: [u8; Tree::MAX_EDGES],
}

// The first vertex whose parent is not greater than it, below n or past the root; the count of edges where none is.
fn first_parent_out(n: usize, parents: &[u8]) -> usize
    ensures { result ≡ first (length parents.now) (parent_out n (length parents.now) (parent_of parents.now)) }
{
    let edges = parents.len();
    for (v, parent) in parents.iter().enumerate() {
        let p = *parent as usize;
        if p <= v {
            return v;
        }
        if p < n {
            return v;
        }
        if p > edges {
            return v;
        }
    }
    edges
}

// How many children each vertex has: one pass in which each vertex counts at its parent.
fn child_counts(parents: &[u8]) -> [u8; Tree::MAX_VERTICES]
    requires parents_len_bound { length parents.now ≤ max_edges }
    requires by_index { (v : ℕ) → v < length parents.now → parent_of parents.now v ≤ length parents.now }
    ensures { (w : ℕ) → get_or result w 0 ≡ children (length parents.now) (parent_of parents.now) w }
{
    let mut counts: [u8; Tree::MAX_VERTICES] = arrays::filled(0);
    for parent in parents {
        let p = *parent as usize;
        counts[p] += 1;
    }
    counts
}

// A count of children below what is needed, or more than `spare` above it.
fn count_out(count: u8, needed: u8, spare: u8) -> bool
    ensures { result ≡ (ltb count needed || ltb (needed + spare) count) }
{
    if count < needed {
        return true;
    }
    count - needed > spare
}

// The first inner vertex that has fewer children than it needs, two, or three at the root, or more than `spare` above
// that; the count of vertices where none has.
pub fn first_children_out(n: usize, parents: &[u8], spare: u8) -> usize
    requires n_in_bounds { (n ≤ length parents.now) × (length parents.now ≤ max_edges) }
    requires by_index { (v : ℕ) → v < length parents.now → parent_of parents.now v ≤ length parents.now }
    ensures { result ≡ first (length parents.now + 1) (children_out spare n (length parents.now) (parent_of parents.now)) }
{
    let edges = parents.len();
    let counts = child_counts(parents);
    for w in n..edges {
        if count_out(counts[w], 2, spare) {
            return w;
        }
    }
    if count_out(counts[edges], 3, spare) {
        return edges;
    }
    edges + 1
}

// The answer to a table of parents: 6, 8, 9 or 16, 10, the first that applies.
pub fn check_tree(n: u32, parents: &[u8]) -> Verdict
    ensures { answer_of result ≡ tree_tests n parents.now }
{
    let strains = n as usize;
    if strains < Matrix::MIN_STRAINS {
        return Err(Refusal {
            reason: Reason::Strains,
            place: Place::Nowhere,
        });
    }
    if strains > Matrix::MAX_STRAINS {
        return Err(Refusal {
            reason: Reason::Strains,
            place: Place::Nowhere,
        });
    }
    // V is one more than the edges; the tests compare the edges, so that no sum can wrap.
    let edges = parents.len();
    if edges < strains {
        return Err(Refusal {
            reason: Reason::Vertices,
            place: Place::Nowhere,
        });
    }
    if edges > 2 * strains - 3 {
        return Err(Refusal {
            reason: Reason::Vertices,
            place: Place::Nowhere,
        });
    }
    let v = first_parent_out(strains, parents);
    if v < edges {
        if parents[v] as usize > edges {
            return Err(Refusal {
                reason: Reason::PastRoot,
                place: Place::Vertex(v),
            });
        }
        return Err(Refusal {
            reason: Reason::Parent,
            place: Place::Vertex(v),
        });
    }
    let w = first_children_out(strains, parents, Tree::MAX_EDGES as u8);
    if w <= edges {
        return Err(Refusal {
            reason: Reason::Children,
            place: Place::Vertex(w),
        });
    }
    Ok(())
}

// The parents, then zeros.
pub fn copied(parents: &[u8]) -> [u8; Tree::MAX_EDGES]
    requires { length parents.now ≤ max_edges }
    ensures { result ≡ table max_edges (parent_of parents.now) }
{
    arrays::padded(parents, 0)
}

impl Tree {
    // As many edges and vertices as a tree of the most strains has at most: V is at most 2N - 2.
    pub const MAX_EDGES: usize = Tree::MAX_VERTICES - 1;

    pub const MAX_VERTICES: usize = 2 * Matrix::MAX_STRAINS - 2;

    // The tree, where the check accepts it.
    pub fn new(n: u32, parents: &[u8]) -> Result<Tree, Refusal>
        ensures { TreeAnswer n parents.now result }
    {
        check_tree(n, parents)?;
        Ok(Tree {
            n: n as usize,
            edges: parents.len(),
            parents: copied(parents),
        })
    }
}

// The limits as the code has them; the contract says that the definitions have the same.
#[derive(Clone, Copy)]
pub struct Limits {
    pub edges: usize,
    pub vertices: usize,
}

pub fn stated_limits() -> Limits
    ensures { (result.edges ≡ max_edges) × (result.vertices ≡ max_vertices) }
{
    Limits {
        edges: Tree::MAX_EDGES,
        vertices: Tree::MAX_VERTICES,
    }
}
