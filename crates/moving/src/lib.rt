// A table of the edges moved along the path of two vertices: the edges that part the two are touched, and no other.
#![tactic(auto)]

ghost use Rattle.std.specs.Prelude.{◌≡◌, ◌≢◌, ◌≤◌};
ghost use Rattle.moving.specs.Moved.{Moved, Movable, Ordered};

use tree::Tree;

// The ends of a path, the lower vertex and the higher one.
#[derive(Clone, Copy)]
pub struct Ends {
    pub low: usize,
    pub high: usize,
}

// Two different vertices in their order, by a function of its own: the turn of the climb then has no branch.
fn ordered(a: usize, b: usize) -> Ends
    requires { a ≢ b }
    ensures { Ordered a b result }
{
    if a < b {
        return Ends { low: a, high: b };
    }
    Ends { low: b, high: a }
}

// Every edge that parts i and j moved by one number. Both climb, whichever stands lower, until they meet: a parent is greater than its
// child, so the lower vertex's edge is on the path.
pub fn move_between(
    edges: usize,
    parents: &[u8],
    i: usize,
    j: usize,
    by: i64,
    table: &mut [i64; Tree::MAX_EDGES],
)
    requires movable { Movable edges parents.now by table.old }
    requires i_le_edges { (i ≤ edges) × (j ≤ edges) }
    ensures { Moved edges parents.now i j by table.old table.new }
{
    let mut a = i;
    let mut b = j;
    // A climb; no index is counted.
    while a != b {
        let ends = ordered(a, b);
        let low = ends.low;
        table[low] = table[low] + by;
        a = parents[low] as usize;
        b = ends.high;
    }
}
