// The lines of a run of sheets, written to the front of a lent buffer: `best` and a number, or the line of a refusal.
#![tactic(auto)]

ghost use Rattle.std.specs.Prelude.{[], ◌∷◌, ◌≤◌, pos, length};
ghost use Rattle.verdict.specs.declared.Place.TheVariants.{Nowhere};
ghost use Rattle.writing.specs.Text.{Wrote};
ghost use Rattle.lines.specs.Lines.{line, refused_line};
ghost use Rattle.lines.specs.Page.{widest};
ghost use Rattle.shortest_lines.specs.Answered.{best_word, line_of_result};

use verdict::{Place, Reason, Refusal};

// best, and the winner's number.
fn best_line(text: &mut [u8], number: u64) -> usize
    requires { widest ≤ length text.old }
    ensures { Wrote text.old text.new 0 (line best_word (pos number ∷ [])) result }
{
    let space = writing::put_word(text, 0, b"best");
    let digits = writing::put(text, space, b' ');
    let end = writing::put_number(text, digits, number);
    writing::put(text, end, b'\n')
}

// The line of an answer: the winner's number, or the refusal.
pub fn answer_line(best: Result<u64, Refusal>, text: &mut [u8]) -> usize
    requires { widest ≤ length text.old }
    ensures { Wrote text.old text.new 0 (line_of_result best) result }
{
    match best {
        Err(refusal) => lines::refused_line(text, 0, u32::from(refusal.reason), refusal.place),
        Ok(number) => best_line(text, number),
    }
}

// The line where the input ends within a length or within a sheet: 2, with no place.
pub fn cut_line(text: &mut [u8]) -> usize
    requires { widest ≤ length text.old }
    ensures { Wrote text.old text.new 0 (refused_line 2 Nowhere) result }
{
    answer_line(
        Err(Refusal {
            reason: Reason::RecordCut,
            place: Place::Nowhere,
        }),
        text,
    )
}
