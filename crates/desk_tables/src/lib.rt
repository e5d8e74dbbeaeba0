// The tables of a posting, from the numbers that a line has: the distances put from rows into the matrix's order, the parents as bytes.
#![tactic(auto)]

ghost use Rattle.std.specs.Prelude.{◌≡◌, true, cond, ◌&&◌, ℕ, ◌+◌, ◌≤◌, ◌<◌, eqb, leb, length, get_or};
ghost use Rattle.matrix.specs.Limits.{max_strains};
ghost use Rattle.matrix.specs.Place.{pair_count, row_place};
ghost use Rattle.desk_text.specs.Meaning.{by_strains};
ghost use Rattle.desk_tables.specs.Laid.{Front};

use matrix::Matrix;

// Whether so many distances are those of n strains that a matrix can have.
fn is_matrix(n: u32, count: usize) -> bool
    ensures { result ≡ (leb n max_strains && eqb count (pair_count n)) }
{
    if n as usize > Matrix::MAX_STRAINS {
        return false;
    }
    matrix::pair_count(n) == count as u64
}

// Where the distance at place k of the matrix, that of the pair i j, stands among the rows; where they are no matrix's, at k itself.
fn source(ordered: bool, n: usize, i: usize, j: usize, k: usize) -> usize
    requires { ordered ≡ true → (i < j) × (j < n) × (n ≤ max_strains) }
    ensures { result ≡ cond ordered (row_place n i j) k }
{
    if ordered {
        return matrix::row_place(n, i, j);
    }
    k
}

// The distances of a line, which stand in rows, put in the matrix's order into the front of a table.
pub fn lay_distances(n: u32, rows: &[u16], distances: &mut [u16])
    requires { (length rows.now ≤ length distances.old) × (length rows.now < 65536) }
    ensures { Front (by_strains n rows.now) distances.old distances.new }
{
    let ordered = is_matrix(n, rows.len());
    let mut i = 0;
    let mut j = 1;
    for k in 0..rows.len() {
        distances[k] = rows[source(ordered, n as usize, i, j, k)];
        let next = pairs::next_pair(i, j);
        i = next.i;
        j = next.j;
    }
}

// The parents of a line as bytes into the front of a table.
pub fn lay_parents(numbers: &[u16], parents: &mut [u8])
    requires numbers_in_bounds { length numbers.now ≤ length parents.old }
    requires by_index { (k : ℕ) → get_or numbers.now k 0 < 256 }
    ensures { Front numbers.now parents.old parents.new }
{
    for (k, number) in numbers.iter().enumerate() {
        parents[k] = *number as u8;
    }
}
