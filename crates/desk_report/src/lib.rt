// The report of a bench's table (RULES, Two benches): the one that RULES has for it on the matrix and the tree that are posted now. It is
// worked out when it is asked for; nothing of it is kept.
#![tactic(auto)]

ghost use Rattle.std.specs.Prelude.{◌≡◌, length};
ghost use Rattle.reporting.specs.Answers.{Reported};
ghost use Rattle.desk.specs.Held.{matrix_of, tree_of, numerators_of, PostingHeld, TableHeld, Held};
ghost use Rattle.desk_report.specs.Reports.{DeskReport};

use desk::{Desk, Posting, Table};
use reporting::FitReport;
use verdict::{Place, Reason, Refusal, Rule};

// The numbers of a table that stands, with its rounded lengths in the buffer.
pub fn numbers_of(posting: Posting, table: Table, rounded: &mut [i64]) -> FitReport
    requires posting_held { PostingHeld posting }
    requires table_held { TableHeld posting table }
    requires rounded_len { length rounded.old ≡ posting.edges }
    ensures { Reported Rule.Plain posting.n (matrix_of posting) (tree_of posting) table.d (numerators_of posting.edges table) rounded.new result }
{
    reporting::numbered(
        Rule::Plain,
        posting.n,
        &posting.distances[..posting.pairs],
        &posting.parents[..posting.edges],
        table.d,
        &table.numerators[..posting.edges],
        rounded,
    )
}

// 20, 21, 15, the first that applies; a refusal leaves the buffer as it was.
pub fn report(desk: Desk, bench: u32, rounded: &mut [i64]) -> Result<FitReport, Refusal>
    requires { Held desk }
    ensures { DeskReport desk bench rounded.old rounded.new result }
{
    let standing = desk::standing_for(desk, bench)?;
    let posting = standing.posted.posting;
    if rounded.len() != posting.edges {
        return Err(Refusal {
            reason: Reason::Buffer,
            place: Place::Nowhere,
        });
    }
    Ok(numbers_of(posting, standing.table, rounded))
}
