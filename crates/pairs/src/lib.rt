// Pairs of strains: the order in which a matrix has them.
#![tactic(auto)]

ghost use Rattle.std.specs.Prelude.{◌≡◌, ◌<◌};
ghost use Rattle.matrix.specs.Place.{behind};

// Two strains, the first below the second.
#[derive(Clone, Copy)]
pub struct Pair {
    pub i: usize,
    pub j: usize,
}

// The pair behind i j, column by column: 01, 02, 12, 03, 13, 23, ..
pub fn next_pair(i: usize, j: usize) -> Pair
    requires { (i < 65536) × (j < 65536) }
    ensures { (result.i ≡ (behind (i, j)).0) × (result.j ≡ (behind (i, j)).1) }
{
    if i + 1 < j {
        Pair { i: i + 1, j }
    } else {
        Pair { i: 0, j: j + 1 }
    }
}
