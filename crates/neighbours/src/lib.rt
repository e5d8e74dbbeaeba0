// The neighbours of an edge of a resolved tree: the children of each vertex in one table, the two other edges at the
// upper end of an edge, and how many strains stand there. Every tree has an edge for each of its parents.
#![tactic(auto)]

ghost use Rattle.std.specs.Prelude.{◌≡◌, ◌≤◌, ◌<◌, length};
ghost use Rattle.exact.specs.Table.{table};
ghost use Rattle.tree_theory.specs.Limits.{max_edges, max_vertices};
ghost use Rattle.tree_theory.specs.Chain.{parent_of};
ghost use Rattle.tree_theory.specs.Allowed.{Allowed};
ghost use Rattle.paths.specs.Standing.{Standing};
ghost use Rattle.direct_theory.specs.Children.{Resolved, child_of, sibling, farther};
ghost use Rattle.direct_theory.specs.Averages.{strains_below, neither, size};
ghost use Rattle.neighbours.specs.Listed.{child_room, Listed};

use tree::Tree;

// Room for three children of each vertex.
pub const CHILD_ROOM: usize = 3 * Tree::MAX_VERTICES;

// The children of each vertex in rising order: child k of w at 3w + k.
pub fn child_table(n: usize, parents: &[u8]) -> [u8; CHILD_ROOM]
    requires allowed { Allowed n (length parents.now) (parent_of parents.now) }
    requires resolved { Resolved n (length parents.now) (parent_of parents.now) }
    ensures { Listed (length parents.now) (parent_of parents.now) result }
{
    let mut listed: [u8; CHILD_ROOM] = arrays::filled(0);
    let mut counts: [u8; Tree::MAX_VERTICES] = arrays::filled(0);
    for (v, parent) in parents.iter().enumerate() {
        let p = *parent as usize;
        let k = counts[p];
        listed[3 * p + k as usize] = v as u8;
        counts[p] = k + 1;
    }
    listed
}

// Child k of w.
pub fn child(parents: &[u8], children: &[u8; CHILD_ROOM], w: usize, k: usize) -> usize
    requires listed { Listed (length parents.now) (parent_of parents.now) children.now }
    requires w_in_bounds { (w ≤ length parents.now) × (length parents.now ≤ max_edges) × (k < 3) }
    ensures { result ≡ child_of (length parents.now) (parent_of parents.now) w k }
{
    children[3 * w + k] as usize
}

// Another child of c's parent.
pub fn sibling(parents: &[u8], children: &[u8; CHILD_ROOM], c: usize) -> usize
    requires listed { Listed (length parents.now) (parent_of parents.now) children.now }
    requires c_in_bounds { (c < length parents.now) × (length parents.now ≤ max_edges) × (parent_of parents.now c ≤ length parents.now) }
    ensures { result ≡ sibling (length parents.now) (parent_of parents.now) c }
{
    let w = parents[c] as usize;
    let first = child(parents, children, w, 0);
    if c == first {
        return child(parents, children, w, 1);
    }
    first
}

// The edge at c's parent that is neither c nor the sibling.
pub fn farther(parents: &[u8], children: &[u8; CHILD_ROOM], c: usize) -> usize
    requires listed { Listed (length parents.now) (parent_of parents.now) children.now }
    requires c_in_bounds { (c < length parents.now) × (length parents.now ≤ max_edges) × (parent_of parents.now c ≤ length parents.now) }
    ensures { result ≡ farther (length parents.now) (parent_of parents.now) c }
{
    let w = parents[c] as usize;
    let first = child(parents, children, w, 0);
    let second = child(parents, children, w, 1);
    if c != first {
        if c != second {
            return second;
        }
    }
    if w == parents.len() {
        return child(parents, children, w, 2);
    }
    w
}

// How many strains are below v.
pub fn strains(n: usize, parents: &[u8], masks: &[u64; Tree::MAX_VERTICES], v: usize) -> i64
    requires standing { Standing n (length parents.now) parents.now masks.now }
    requires v_in_bounds { v ≤ length parents.now }
    ensures { result ≡ size n (strains_below (parent_of parents.now) v) }
{
    clusters::strains_below(masks[v]) as i64
}

// How many strains are below neither c nor its sibling s.
pub fn beyond(
    n: usize,
    parents: &[u8],
    masks: &[u64; Tree::MAX_VERTICES],
    c: usize,
    s: usize,
) -> i64
    requires standing { Standing n (length parents.now) parents.now masks.now }
    requires resolved { Resolved n (length parents.now) (parent_of parents.now) }
    requires c_in_bounds { (c < length parents.now) × (s ≡ sibling (length parents.now) (parent_of parents.now) c) }
    ensures { result ≡ size n (neither (parent_of parents.now) c s) }
{
    let near = strains(n, parents, masks, c);
    let beside = strains(n, parents, masks, s);
    n as i64 - near - beside
}
