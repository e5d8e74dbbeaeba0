// What a bench does with its table (RULES, Two benches): it proposes lengths, which stand where they are the fit to what is posted, or
// takes its table down.
#![tactic(auto)]

ghost use Rattle.std.specs.Prelude.{◌≡◌, true, ◌≤◌, length};
ghost use Rattle.verdict.specs.Answer.{answer_of};
ghost use Rattle.tree_theory.specs.Limits.{max_edges};
ghost use Rattle.fit_theory.specs.Tests.{proposal_tests};
ghost use Rattle.desk_theory.specs.Desk.{propose, withdraw};
ghost use Rattle.desk.specs.Held.{matrix_of, tree_of, PostingHeld, Held, Steps};
ghost use Rattle.desk_benches.specs.Tables.{IsTable};

use desk::{Desk, Posting, Table};
use verdict::{Refusal, Rule, Verdict};

// What lengths are asked beside what is posted: 11 to 14.
fn judged(posting: Posting, d: u32, numerators: &[i64]) -> Verdict
    requires { PostingHeld posting }
    ensures { answer_of result ≡ proposal_tests Rule.Plain posting.n (matrix_of posting) (tree_of posting) d numerators.now }
{
    let distances = posting.distances;
    let parents = posting.parents;
    let pairs = posting.pairs;
    let edges = posting.edges;
    judging::judge_proposal(
        Rule::Plain,
        posting.n,
        &distances[..pairs],
        &parents[..edges],
        d,
        numerators,
    )
}

// A table of lengths: its numerators, then zeros.
fn table(d: u32, numerators: &[i64]) -> Table
    requires { length numerators.now ≤ max_edges }
    ensures { IsTable d numerators.now result }
{
    Table {
        d,
        numerators: lengths::copied(numerators),
    }
}

// A bench proposes: 20, 21, 11 to 14, the first that applies. What is accepted takes the place of its earlier table.
pub fn propose(desk: Desk, bench: u32, d: u32, numerators: &[i64]) -> Result<Desk, Refusal>
    requires { Held desk }
    ensures { Steps desk (propose bench d numerators.now) result }
{
    let posted = desk::posted_for(desk, bench)?;
    judged(posted.posting, d, numerators)?;
    Ok(desk::with_table_on(posted, bench, Some(table(d, numerators))))
}

// A bench takes its table down: 20, 21, the first that applies.
pub fn withdraw(desk: Desk, bench: u32) -> Result<Desk, Refusal>
    requires { Held desk }
    ensures { Steps desk (withdraw bench) result }
{
    let standing = desk::standing_for(desk, bench)?;
    Ok(desk::with_table_on(standing.posted, bench, None))
}
