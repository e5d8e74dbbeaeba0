// The pairs of a bench's table (RULES, The desk's lines): of the table that stands in its name, on the matrix and the tree that are posted
// now. They are worked out when they are asked for; nothing of them is kept.
#![tactic(auto)]

ghost use Rattle.std.specs.Prelude.{◌≤◌, length};
ghost use Rattle.writing.specs.Text.{Wrote};
ghost use Rattle.pair_lines.specs.Lines.{pairs_page};
ghost use Rattle.desk.specs.Held.{PostingHeld, TableHeld, Held};
ghost use Rattle.desk_pairs.specs.Pairs.{table_pairs, pairs_on};

use desk::{Desk, Posting, Table};

// The pairs of a table that stands.
fn pairs_of(posting: Posting, table: Table, page: &mut [u8]) -> usize
    requires posting_held { PostingHeld posting }
    requires table_held { TableHeld posting table }
    requires pairs_page_in_bounds { pairs_page ≤ length page.old }
    ensures { Wrote page.old page.new 0 (table_pairs posting table) result }
{
    let distances = posting.distances;
    let parents = posting.parents;
    let numerators = table.numerators;
    pair_lines::numbered_pairs(
        page,
        posting.n,
        &distances[..posting.pairs],
        &parents[..posting.edges],
        table.d,
        &numerators[..posting.edges],
    )
}

// 20, 21, the first that applies, as `refused` and the number; otherwise the pairs of the bench's table.
pub fn pairs_text(desk: Desk, bench: u32, page: &mut [u8]) -> usize
    requires held { Held desk }
    requires pairs_page_in_bounds { pairs_page ≤ length page.old }
    ensures { Wrote page.old page.new 0 (pairs_on desk bench) result }
{
    match desk::standing_for(desk, bench) {
        Ok(standing) => pairs_of(standing.posted.posting, standing.table, page),
        Err(refusal) => {
            let place = refusal.place;
            lines::refused_line(page, 0, u32::from(refusal.reason), place)
        }
    }
}
