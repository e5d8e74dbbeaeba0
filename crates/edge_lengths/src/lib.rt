// The length of each edge of a resolved tree in lowest terms: the formulas of `averages` at the edge's own sizes and split sums.
#![tactic(auto)]

ghost use Rattle.std.specs.Prelude.{◌≡◌, ◌≤◌, ◌<◌, length};
ghost use Rattle.exact.specs.Table.{entry_of};
ghost use Rattle.exact.specs.Fraction.{Lowest};
ghost use Rattle.tree_theory.specs.Chain.{parent_of};
ghost use Rattle.direct_theory.specs.Splits.{outer_by, inner_by, length_by, SplitSums};
ghost use Rattle.edge_lengths.specs.Known.{Known};
ghost use Rattle.edge_lengths.specs.Tables.{Lowered};

use arithmetic::Ratio;
use neighbours::CHILD_ROOM;
use tree::Tree;

// The length of the edge to strain c: its sibling's strains and those beyond stand at the other end.
fn outer_length(
    n: usize,
    parents: &[u8],
    masks: &[u64; Tree::MAX_VERTICES],
    children: &[u8; CHILD_ROOM],
    sums: &[i64; Tree::MAX_EDGES],
    c: usize,
) -> Ratio
    requires known { Known n (length parents.now) parents.now masks.now children.now sums.now }
    requires c_lt_n { c < n }
    ensures { Lowest (outer_by n (length parents.now) (parent_of parents.now) (entry_of sums.now) c) result.top result.bottom }
{
    let s = neighbours::sibling(parents, children, c);
    let e = neighbours::farther(parents, children, c);
    let a = neighbours::strains(n, parents, masks, s);
    let b = neighbours::beyond(n, parents, masks, c, s);
    averages::outer(a, b, sums[c], sums[s], sums[e])
}

// The length of an inner edge c: its two children's strains stand at one end, its sibling's and those
// beyond at the other.
fn inner_length(
    n: usize,
    parents: &[u8],
    masks: &[u64; Tree::MAX_VERTICES],
    children: &[u8; CHILD_ROOM],
    sums: &[i64; Tree::MAX_EDGES],
    c: usize,
) -> Ratio
    requires known { Known n (length parents.now) parents.now masks.now children.now sums.now }
    requires n_le_c { (n ≤ c) × (c < length parents.now) }
    ensures { Lowest (inner_by n (length parents.now) (parent_of parents.now) (entry_of sums.now) c) result.top result.bottom }
{
    let x = neighbours::child(parents, children, c, 0);
    let y = neighbours::child(parents, children, c, 1);
    let s = neighbours::sibling(parents, children, c);
    let e = neighbours::farther(parents, children, c);
    let a = neighbours::strains(n, parents, masks, x);
    let b = neighbours::strains(n, parents, masks, y);
    let l = neighbours::strains(n, parents, masks, s);
    let m = neighbours::beyond(n, parents, masks, c, s);
    averages::inner(a, b, l, m, sums[c], sums[x], sums[y], sums[s], sums[e])
}

// The length of edge c in lowest terms.
pub fn edge_length(
    n: usize,
    parents: &[u8],
    masks: &[u64; Tree::MAX_VERTICES],
    children: &[u8; CHILD_ROOM],
    sums: &[i64; Tree::MAX_EDGES],
    c: usize,
) -> Ratio
    requires known { Known n (length parents.now) parents.now masks.now children.now sums.now }
    requires c_in_bounds { c < length parents.now }
    ensures { Lowest (length_by n (length parents.now) (parent_of parents.now) (entry_of sums.now) c) result.top result.bottom }
{
    if c < n {
        return outer_length(n, parents, masks, children, sums, c);
    }
    inner_length(n, parents, masks, children, sums, c)
}

// Each length into the two buffers, and its rounding to thousandths into a table.
pub fn fill(
    n: usize,
    parents: &[u8],
    masks: &[u64; Tree::MAX_VERTICES],
    children: &[u8; CHILD_ROOM],
    sums: &[i64; Tree::MAX_EDGES],
    numerators: &mut [i64],
    denominators: &mut [u32],
) -> [i64; Tree::MAX_EDGES]
    requires known { Known n (length parents.now) parents.now masks.now children.now sums.now }
    requires split_sums { SplitSums n (length parents.now) (parent_of parents.now) sums.now }
    requires numerators_len { (length numerators.old ≡ length parents.now) × (length denominators.old ≡ length parents.now) }
    ensures { Lowered (length parents.now) (length_by n (length parents.now) (parent_of parents.now) (entry_of sums.now)) numerators.new denominators.new result }
{
    let mut rounded: [i64; Tree::MAX_EDGES] = arrays::filled(0);
    for v in 0..parents.len() {
        let ratio = edge_length(n, parents, masks, children, sums, v);
        let top = ratio.top;
        let bottom = ratio.bottom as u32;
        let thousandths = arithmetic::thousandths(top, bottom);
        numerators[v] = top;
        denominators[v] = bottom;
        rounded[v] = thousandths;
    }
    rounded
}
