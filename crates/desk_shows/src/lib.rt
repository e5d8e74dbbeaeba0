// What a bench is shown of its table (RULES, The desk's lines): its report, its pairs, or the refusal of both.
#![tactic(auto)]

ghost use Rattle.std.specs.Prelude.{◌≤◌, length};
ghost use Rattle.writing.specs.Text.{Wrote};
ghost use Rattle.pair_lines.specs.Lines.{pairs_page};
ghost use Rattle.desk.specs.Held.{desk_of, Held};
ghost use Rattle.desk_shows.specs.Shows.{ShownReport, show_text};

use desk::Desk;
use desk_text::View;
use sheet::SheetFit;
use verdict::{Refusal, Rule};

// The report of a bench's table with its numerators and its rounded lengths, each followed by zeros.
fn report_of(desk: Desk, bench: u32) -> Result<SheetFit, Refusal>
    requires { Held desk }
    ensures { ShownReport desk bench result }
{
    let standing = desk::standing_for(desk, bench)?;
    let edges = standing.posted.posting.edges;
    let numerators = standing.table.numerators;
    let mut rounded: [i64; tree::Tree::MAX_EDGES] = arrays::filled(0);
    let report = desk_report::numbers_of(
        standing.posted.posting,
        standing.table,
        &mut rounded[..edges],
    );
    Ok(SheetFit {
        report,
        numerators,
        rounded,
    })
}

// What a bench asked to be shown.
pub fn show_lines(desk: Desk, view: View, bench: u32, page: &mut [u8]) -> usize
    requires held { Held desk }
    requires pairs_page_in_bounds { pairs_page ≤ length page.old }
    ensures { Wrote page.old page.new 0 (show_text (desk_of desk) view bench) result }
{
    match view {
        View::Report => { answer_lines::report_text(Rule::Plain, &report_of(desk, bench), page) }
        View::Pairs => desk_pairs::pairs_text(desk, bench, page),
    }
}
