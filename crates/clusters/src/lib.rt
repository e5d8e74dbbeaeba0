// Clusters of an allowed tree: the strains below each vertex as a mask, bit i for strain i; whether a strain is in a cluster, and
// whether an edge parts two strains.
#![tactic(auto)]

ghost use Rattle.std.specs.Prelude.{◌≡◌, cond, not, ◌^◌, ◌≤◌, ltb, leb, length};
ghost use Rattle.std.specs.Int.Count.{ones};
ghost use Rattle.exact.specs.Table.{table};
ghost use Rattle.matrix.specs.Limits.{max_strains};
ghost use Rattle.tree_theory.specs.Limits.{max_vertices};
ghost use Rattle.tree_theory.specs.Chain.{parent_of};
ghost use Rattle.tree_theory.specs.Allowed.{Allowed};
ghost use Rattle.tree_theory.specs.Cluster.{bit_at, cluster};

use tree::Tree;

// The masks that clusters start from: each strain holds itself, an inner vertex nothing.
pub fn own_bits(n: usize) -> [u64; Tree::MAX_VERTICES]
    requires { n ≤ max_strains }
    ensures { result ≡ table max_vertices (λ w. cond (ltb w n) (2 ^ w) 0) }
{
    let mut masks: [u64; Tree::MAX_VERTICES] = arrays::filled(0);
    for i in 0..n {
        masks[i] = 1u64 << i;
    }
    masks
}

// The strains below each vertex. Parents are greater than children, so each vertex has its whole
// mask when its turn comes to hand it to its parent.
pub fn clusters(n: usize, parents: &[u8]) -> [u64; Tree::MAX_VERTICES]
    requires { Allowed n (length parents.now) (parent_of parents.now) }
    ensures { result ≡ table max_vertices (λ v. cond (leb v (length parents.now)) (cluster n (parent_of parents.now) v) 0) }
{
    let mut masks = own_bits(n);
    for (v, parent) in parents.iter().enumerate() {
        let p = *parent as usize;
        let own = masks[v];
        masks[p] = masks[p] | own;
    }
    masks
}

// How many strains a cluster has.
pub fn strains_below(mask: u64) -> u32
    ensures { result ≡ ones mask }
{
    u64::count_ones(mask)
}

// Whether a cluster has a strain. No strain has a number past 63.
fn has(mask: u64, strain: u32) -> bool
    ensures { result ≡ bit_at mask strain }
{
    if strain >= 64 {
        return false;
    }
    (mask >> strain) % 2 == 1
}

// Whether a cluster has exactly one of two strains, so that its edge parts them.
pub fn parted(mask: u64, i: u32, j: u32) -> bool
    ensures { result ≡ cond (bit_at mask i) (not (bit_at mask j)) (bit_at mask j) }
{
    if has(mask, i) {
        return !has(mask, j);
    }
    has(mask, j)
}
