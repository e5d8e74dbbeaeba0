// A sheet of bytes, read once. A sheet is three records, one behind the other, and nothing else: the matrix,
// the tree and the lengths. A sheet without lengths is the first two; one with names has a fourth, which the
// form asks its counts and which is not read here.
#![tactic(auto)]

ghost use Rattle.std.specs.Prelude.{◌≡◌, ◌-◌, ◌≤◌, pos};
ghost use Rattle.exact.specs.Table.{table};
ghost use Rattle.verdict.specs.Answer.{pass};
ghost use Rattle.matrix.specs.Limits.{max_pairs};
ghost use Rattle.tree_theory.specs.Limits.{max_edges};
ghost use Rattle.records.specs.Form.{max_records, start_of, form_tests};
ghost use Rattle.reading.specs.Holds.{vertices_of};
ghost use Rattle.reading.specs.Reads.{Proposed, OutlineAnswer, SheetAnswer};

use matrix::Matrix;
use records::Layout;
use tree::Tree;
use verdict::{Place, Reason, Refusal};

// What a sheet holds beside its two tables: N, and how many pairs there are; where the parents of its tree start and end among the
// bytes; D and K. Without lengths D and K are 0.
#[derive(Clone, Copy)]
pub struct Outline {
    pub strains: u32,
    pub pairs: usize,
    pub parents: usize,
    pub end: usize,
    pub denominator: u32,
    pub edges: usize,
}

// What a sheet holds: N and the distances, then zeros; where the parents of its tree start and end among the
// bytes; D, K and the numerators, then zeros. Without lengths D and K are 0.
#[derive(Clone, Copy)]
pub struct Sheet {
    pub strains: u32,
    pub pairs: usize,
    pub distances: [u16; Matrix::MAX_PAIRS],
    pub parents: usize,
    pub end: usize,
    pub denominator: u32,
    pub edges: usize,
    pub numerators: [i64; Tree::MAX_EDGES],
}

// What the lengths of a sheet are beside their numerators.
#[derive(Clone, Copy)]
struct Proposal {
    denominator: u32,
    edges: usize,
}

// The lengths of a sheet of the form, which start at `at`, beside a tree of so many edges: 11 where K is another
// count. The numerators go to the front of a lent table of zeros. A sheet of two records has none.
fn proposed_lengths(
    s: &[u8],
    count: usize,
    at: usize,
    edges: usize,
    numerators: &mut [i64; Tree::MAX_EDGES],
) -> Result<Proposal, Refusal>
    requires le_count { (2 ≤ count) × (count ≤ max_records) × (form_tests count s.now ≡ pass) × (at ≡ start_of s.now 2) }
    requires edges_value { (edges ≡ vertices_of s.now - 1) × (edges ≤ max_edges) }
    requires numerators_value { numerators.old ≡ table max_edges (λ _. pos 0) }
    ensures { Proposed count s.now numerators.new result }
{
    if count == 2 {
        return Ok(Proposal {
            denominator: 0,
            edges: 0,
        });
    }
    let body = at + Layout::HEAD;
    if endian::u16_at(s, body + 4) as usize != edges {
        return Err(Refusal {
            reason: Reason::Edges,
            place: Place::Nowhere,
        });
    }
    decoding::numerators_into(s, body + 6, edges, numerators);
    Ok(Proposal {
        denominator: endian::u32_at(s, body),
        edges,
    })
}

// What a sheet of the form holds: 6 to 11, 16, 26. Another count than the tree's edges is refused before a numerator is read.
fn held(
    s: &[u8],
    count: usize,
    tree: usize,
    end: usize,
    distances: &mut [u16; Matrix::MAX_PAIRS],
    numerators: &mut [i64; Tree::MAX_EDGES],
) -> Result<Outline, Refusal>
    requires le_count { (2 ≤ count) × (count ≤ max_records) × (form_tests count s.now ≡ pass) × (tree ≡ start_of s.now 1) × (end ≡ start_of s.now 2) }
    requires distances_value { distances.old ≡ table max_pairs (λ _. 0) }
    requires numerators_value { numerators.old ≡ table max_edges (λ _. pos 0) }
    ensures { OutlineAnswer count s.now distances.new numerators.new result }
{
    let front = front::read_front(s, count, tree, end, distances)?;
    let proposed = proposed_lengths(s, count, end, end - front.parents, numerators)?;
    Ok(Outline {
        strains: front.strains,
        pairs: front.pairs,
        parents: front.parents,
        end,
        denominator: proposed.denominator,
        edges: proposed.edges,
    })
}

// What a sheet of so many records holds, three, without lengths two, or with names four: 1 to 11, 16, 26,
// the first that applies. Of four it is what the first three hold. The distances and the numerators go to the front of lent tables
// of zeros; of a refused sheet nothing is said of these.
pub fn read_into(
    s: &[u8],
    count: usize,
    distances: &mut [u16; Matrix::MAX_PAIRS],
    numerators: &mut [i64; Tree::MAX_EDGES],
) -> Result<Outline, Refusal>
    requires le_count { (2 ≤ count) × (count ≤ max_records) }
    requires distances_value { distances.old ≡ table max_pairs (λ _. 0) }
    requires numerators_value { numerators.old ≡ table max_edges (λ _. pos 0) }
    ensures { OutlineAnswer count s.now distances.new numerators.new result }
{
    let laid = records::records(s, count)?;
    held(
        s,
        count,
        laid.starts[1],
        laid.starts[2],
        distances,
        numerators,
    )
}

// The same with its tables.
pub fn read(s: &[u8], count: usize) -> Result<Sheet, Refusal>
    requires { (2 ≤ count) × (count ≤ max_records) }
    ensures { SheetAnswer count s.now result }
{
    let mut distances: [u16; Matrix::MAX_PAIRS] = arrays::filled(0);
    let mut numerators: [i64; Tree::MAX_EDGES] = arrays::filled(0);
    let outline = read_into(s, count, &mut distances, &mut numerators)?;
    Ok(Sheet {
        strains: outline.strains,
        pairs: outline.pairs,
        distances,
        parents: outline.parents,
        end: outline.end,
        denominator: outline.denominator,
        edges: outline.edges,
        numerators,
    })
}
