// What a desk holds, by value (RULES, Two benches): the matrix and the tree that are posted with the split sums and the counts beside
// them, and for each of two benches a table that stands, or none. `desk_of`, in specs/Held.antt, says which desk of the definitions a
// value is, and `Held` that it holds just that.
#![tactic(auto)]

ghost use Rattle.std.specs.Prelude.{◌≡◌};
ghost use Rattle.desk_theory.specs.Desk.{bench_out};
ghost use Rattle.desk.specs.Held.{bench_table, named_table, with_table_on, with_table, anew, PostedFor, StandsFor, IsEmpty};

use matrix::Matrix;
use tree::Tree;
use verdict::{Place, Reason, Refusal};

// A matrix and a tree that passed together, each in the front of its table with zeros behind, and every edge's split sum and number of
// measured pairs that it parts.
#[derive(Clone, Copy)]
pub struct Posting {
    pub n: u32,
    pub pairs: usize,
    pub edges: usize,
    pub distances: [u16; Matrix::MAX_PAIRS],
    pub parents: [u8; Tree::MAX_EDGES],
    pub sums: [i64; Tree::MAX_EDGES],
    pub counts: [i64; Tree::MAX_EDGES],
}

// A table that stands in a bench's name, in the front of its numerators with zeros behind.
#[derive(Clone, Copy)]
pub struct Table {
    pub d: u32,
    pub numerators: [i64; Tree::MAX_EDGES],
}

// What is posted, and the table of each bench that has one.
#[derive(Clone, Copy)]
pub struct Posted {
    pub posting: Posting,
    pub first: Option<Table>,
    pub second: Option<Table>,
}

// No table stands where nothing is posted.
#[derive(Clone, Copy)]
pub struct Desk {
    pub posted: Option<Posted>,
}

// A table that stands, and what it stands on.
#[derive(Clone, Copy)]
pub struct Standing {
    pub posted: Posted,
    pub table: Table,
}

// A desk on which nothing is posted and nothing stands.
pub fn empty() -> Desk
    ensures { IsEmpty result }
{
    Desk { posted: None }
}

// Something posted anew: no table stands.
pub fn anew(posting: Posting) -> Desk
    ensures { result ≡ anew posting }
{
    Desk {
        posted: Some(Posted {
            posting,
            first: None,
            second: None,
        }),
    }
}

// Whether a number is no bench's.
fn no_bench(bench: u32) -> bool
    ensures { result ≡ bench_out bench }
{
    bench != 1 && bench != 2
}

// The refusals of a number that is no bench's, and of a call for what is not there.
const NO_BENCH: Refusal = Refusal {
    reason: Reason::Bench,
    place: Place::Nowhere,
};

const NOTHING: Refusal = Refusal {
    reason: Reason::Nothing,
    place: Place::Nowhere,
};

// What a bench's call is asked first: 20 where its number is no bench's, then 21 where nothing is posted; what is posted.
pub fn posted_for(desk: Desk, bench: u32) -> Result<Posted, Refusal>
    ensures { PostedFor desk bench result }
{
    if no_bench(bench) {
        return Err(NO_BENCH);
    }
    desk.posted.ok_or(NOTHING)
}

// The table of bench 1, or of the other, on what is posted.
pub fn table_on(posted: Posted, bench: u32) -> Option<Table>
    ensures { result ≡ bench_table posted bench }
{
    if bench == 1 {
        return posted.first;
    }
    posted.second
}

// The same on a desk; none where nothing is posted.
pub fn table_of(desk: Desk, bench: u32) -> Option<Table>
    ensures { result ≡ named_table desk.posted bench }
{
    table_on(desk.posted?, bench)
}

// The same tests, then 21 where no table stands in the bench's name; the table. It looks where the desk lies, since to hand on what is
// posted is to copy it.
pub fn standing_for(desk: Desk, bench: u32) -> Result<Standing, Refusal>
    ensures { StandsFor desk bench result }
{
    if no_bench(bench) {
        return Err(NO_BENCH);
    }
    let Some(posted) = desk.posted else {
        return Err(NOTHING);
    };
    let found = if bench == 1 {
        posted.first
    } else {
        posted.second
    };
    match found {
        Some(table) => Ok(Standing { posted, table }),
        None => Err(NOTHING),
    }
}

// A table, or none, put in the place of bench 1's, or of the other's, on what is posted.
pub fn with_table_on(posted: Posted, bench: u32, table: Option<Table>) -> Desk
    ensures { result ≡ with_table_on posted bench table }
{
    let mut next = posted;
    if bench == 1 {
        next.first = table;
    } else {
        next.second = table;
    }
    Desk { posted: Some(next) }
}

// The same on a desk. Where nothing is posted nothing can stand, and the desk stays as it is.
pub fn with_table(desk: Desk, bench: u32, table: Option<Table>) -> Desk
    ensures { result ≡ with_table desk bench table }
{
    match desk.posted {
        Some(posted) => with_table_on(posted, bench, table),
        None => desk,
    }
}
