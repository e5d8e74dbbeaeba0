// What a desk answers to what a line means (RULES, The desk's lines): the text, and the desk after it.
#![tactic(auto)]

ghost use Rattle.std.specs.Prelude.{◌≡◌, ◌≤◌, length, IfSome};
ghost use Rattle.verdict.specs.Answer.{answer_of};
ghost use Rattle.writing.specs.Text.{Wrote};
ghost use Rattle.lines.specs.Page.{page_size};
ghost use Rattle.answer_lines.specs.Texts.{by_answer};
ghost use Rattle.pair_lines.specs.Lines.{pairs_page};
ghost use Rattle.desk.specs.Held.{Held, after};
ghost use Rattle.desk_lines.specs.Lines.{Within, line_meaning};
ghost use Rattle.desk_answers.specs.Telling.{ok_line, Responds};

use desk::Desk;
use desk_lines::Line;
use verdict::{Refusal, Verdict};

// The desk after a line, and how many bytes of the page its answer has.
#[derive(Clone, Copy)]
pub struct Told {
    pub desk: Desk,
    pub length: usize,
}

// `ok`, or the line of the refusal.
pub fn answer_line(verdict: Verdict, page: &mut [u8]) -> usize
    requires { page_size ≤ length page.old }
    ensures { Wrote page.old page.new 0 (by_answer (answer_of verdict) ok_line) result }
{
    match verdict {
        Ok(()) => writing::put_word(page, 0, b"ok\n"),
        Err(refusal) => {
            let place = refusal.place;
            lines::refused_line(page, 0, u32::from(refusal.reason), place)
        }
    }
}

// The answer to a call that may change the desk, and the desk after it.
fn answered(desk: Desk, call: Result<Desk, Refusal>, page: &mut [u8]) -> Told
    requires { page_size ≤ length page.old }
    ensures { (result.desk ≡ after desk call) × Wrote page.old page.new 0 (by_answer (answer_of call) ok_line) result.length }
{
    match call {
        Ok(next) => Told {
            desk: next,
            length: answer_line(Ok(()), page),
        },
        Err(refusal) => Told {
            desk,
            length: answer_line(Err(refusal), page),
        },
    }
}

// The answer to what a line means, with its tables beside it; none is a line that has no form.
pub fn respond(
    desk: Desk,
    meaning: Option<Line>,
    distances: &[u16],
    parents: &[u8],
    numerators: &[i64],
    page: &mut [u8],
) -> Told
    requires held { Held desk }
    requires within { IfSome meaning (λ l. Within distances.now parents.now numerators.now l) }
    requires pairs_page_in_bounds { pairs_page ≤ length page.old }
    ensures { Responds desk (line_meaning distances.now parents.now numerators.now meaning) page.old page.new result }
{
    let Some(line) = meaning else {
        return Told {
            desk,
            length: writing::put_word(page, 0, b"refused line\n"),
        };
    };
    match line {
        Line::Silent => Told { desk, length: 0 },
        Line::Posting(p) => answered(
            desk,
            desk_posting::post(p.n, &distances[..p.pairs], &parents[..p.edges]),
            page,
        ),
        Line::Correcting(c) => {
            answered(desk, desk_posting::correct(desk, c.i, c.j, c.far), page)
        }
        Line::Proposing(p) => answered(
            desk,
            desk_benches::propose(desk, p.bench, p.d, &numerators[..p.count]),
            page,
        ),
        Line::Withdrawing(bench) => answered(desk, desk_benches::withdraw(desk, bench), page),
        Line::Showing(show) => Told {
            desk,
            length: desk_shows::show_lines(desk, show.view, show.bench, page),
        },
    }
}
