// The grid that a text's cells were read into: whether its halves and its diagonal are as they must be, and its distances by
// strains. Row i stands from 64·i on.
#![tactic(auto)]

ghost use Rattle.std.specs.Prelude.{◌≡◌, cond, not, ◌+◌, ◌*◌, ◌≤◌, ◌<◌, eqb, length};
ghost use Rattle.verdict.specs.Table.{some};
ghost use Rattle.matrix.specs.Limits.{max_strains};
ghost use Rattle.matrix.specs.Place.{pair_count};
ghost use Rattle.phylip_text.specs.Form.{halves_out, distances_read};
ghost use Rattle.phylip_grid.specs.Grid.{grid_at, cell_off, Filling};

use matrix::Matrix;

// As many entries as the largest matrix has cells.
pub const GRID: usize = Matrix::MAX_STRAINS * Matrix::MAX_STRAINS;

// What is due in row i and column j, by the cell on the other side of the diagonal.
fn due(grid: &[u16], i: usize, j: usize) -> u16
    requires { (i < max_strains) × (j < max_strains) × (max_strains * max_strains ≤ length grid.now) }
    ensures { result ≡ cond (eqb i j) 0 (grid_at grid.now j i) }
{
    if i == j {
        return 0;
    }
    grid[Matrix::MAX_STRAINS * j + i]
}

// Whether row i of n has a cell that is not what is due there.
fn row_off(grid: &[u16], n: usize, i: usize) -> bool
    requires { (i < n) × (n ≤ max_strains) × (max_strains * max_strains ≤ length grid.now) }
    ensures { result ≡ some n (cell_off grid.now i) }
{
    for j in 0..n {
        if grid[Matrix::MAX_STRAINS * i + j] != due(grid, i, j) {
            return true;
        }
    }
    false
}

// 19: whether some cell of n rows is not what is due there.
pub fn halves_off(grid: &[u16], n: usize) -> bool
    requires { (n ≤ max_strains) × (max_strains * max_strains ≤ length grid.now) }
    ensures { result ≡ halves_out n (grid_at grid.now) }
{
    for i in 0..n {
        if row_off(grid, n, i) {
            return true;
        }
    }
    false
}

// Takes the distances of strain j with those before it, from its column, behind the `first` ones that are taken already.
fn column(grid: &[u16], j: usize, first: usize, distances: &mut [u16])
    requires j_lt_max_strains { (j < max_strains) × (max_strains * max_strains ≤ length grid.now) × (first ≡ pair_count j) × (first + j ≤ length distances.old) }
    requires filling { Filling grid.now first distances.old }
    ensures { (length distances.new ≡ length distances.old) × Filling grid.now (first + j) distances.new }
{
    for i in 0..j {
        distances[first + i] = grid[Matrix::MAX_STRAINS * i + j];
    }
}

// The distances of n strains, by strains.
pub fn take_distances(grid: &[u16], n: usize, distances: &mut [u16])
    requires { (n ≤ max_strains) × (max_strains * max_strains ≤ length grid.now) × (length distances.old ≡ pair_count n) }
    ensures { distances.new ≡ distances_read n (grid_at grid.now) }
{
    let mut first = 0;
    for j in 0..n {
        column(grid, j, first, distances);
        first += j;
    }
}
