// The matrix and the tree of a sheet, which are the first two records of every form, read once and tested. What stands behind them is
// not asked here.
#![tactic(auto)]

ghost use Rattle.std.specs.Prelude.{◌≡◌, not, eqb};
ghost use Rattle.exact.specs.Table.{table};
ghost use Rattle.verdict.specs.Answer.{pass, answer_of, test, ◌or_else◌};
ghost use Rattle.matrix.specs.Limits.{max_pairs};
ghost use Rattle.matrix.specs.Tests.{matrix_tests};
ghost use Rattle.records.specs.Form.{start_of, records_tests};
ghost use Rattle.front.specs.Tests.{both_tests};
ghost use Rattle.front.specs.Reads.{FrontAnswer};

use matrix::Matrix;
use records::Layout;
use verdict::{Place, Reason, Refusal, Verdict};

// What the two records hold beside the distances: N and how many pairs; where the parents of the tree start and end among the bytes.
#[derive(Clone, Copy)]
pub struct Front {
    pub strains: u32,
    pub pairs: usize,
    pub parents: usize,
    pub end: usize,
}

// 4, 6 to 10, 16, 26: the matrix; 8 where the tree is for other strains; both, together where lengths follow.
fn posted(count: usize, n: u32, other: u32, distances: &[u16], parents: &[u8]) -> Verdict
    ensures { answer_of result ≡ (matrix_tests n distances.now or_else test 8 (not (eqb other n)) or_else both_tests count n distances.now parents.now) }
{
    if other != n {
        matrix::check_matrix(n, distances)?;
        return Err(Refusal {
            reason: Reason::Vertices,
            place: Place::Nowhere,
        });
    }
    if count > 2 {
        return posting::check_posting(n, distances, parents);
    }
    posting::check_shapes(n, distances, parents)
}

// What the matrix and the tree of a sheet of so many records hold, of which the tree starts at `tree` and ends at `end`: 6 to 10, 16, 26.
// The distances go to the front of a lent table of zeros. More strains than a matrix may have are refused before a distance is read.
pub fn read_front(
    s: &[u8],
    count: usize,
    tree: usize,
    end: usize,
    distances: &mut [u16; Matrix::MAX_PAIRS],
) -> Result<Front, Refusal>
    requires s_value { (records_tests s.now 2 ≡ pass) × (tree ≡ start_of s.now 1) × (end ≡ start_of s.now 2) }
    requires distances_value { distances.old ≡ table max_pairs (λ _. 0) }
    ensures { FrontAnswer count s.now distances.new result }
{
    let n = endian::u16_at(s, Layout::HEAD) as u32;
    let strains = n as usize;
    if strains > Matrix::MAX_STRAINS {
        return Err(Refusal {
            reason: Reason::Strains,
            place: Place::Nowhere,
        });
    }
    let pairs = matrix::pair_count(n) as usize;
    decoding::distances_into(s, Layout::HEAD + 2, strains, distances);
    let body = tree + Layout::HEAD;
    let of_tree = endian::u16_at(s, body) as u32;
    let parents = body + 4;
    let measured = &distances[..];
    posted(count, n, of_tree, &measured[..pairs], &s[parents..end])?;
    Ok(Front {
        strains: n,
        pairs,
        parents,
        end,
    })
}
