// What a line means, read from its bytes: nothing, a call whose tables stand at the front of lent ones, or nothing that has a form.
#![tactic(auto)]

ghost use Rattle.std.specs.Prelude.{◌≤◌, length};
ghost use Rattle.desk_text.specs.Meaning.{max_words, meaning_of};
ghost use Rattle.desk_lines.specs.Lines.{LineIs};

use desk_heads::Kind;
use desk_lines::Line;

// What a line means; its tables stand at the front of the lent ones. None where it has no form.
pub fn read_line(
    line: &[u8],
    numbers: &mut [u16],
    distances: &mut [u16],
    parents: &mut [u8],
    numerators: &mut [i64],
) -> Option<Line>
    requires { (max_words ≤ length numbers.old) × (max_words ≤ length distances.old) × (max_words ≤ length parents.old) × (max_words ≤ length numerators.old) }
    ensures { LineIs (meaning_of line.now) distances.new parents.new numerators.new result }
{
    let head = desk_heads::head_of(line)?;
    let at = head.end;
    match head.kind {
        Kind::Silent => Some(Line::Silent),
        Kind::Post => desk_lines::posting_line(line, at, numbers, distances, parents),
        Kind::Propose => desk_lines::propose_line(line, at, numerators),
        Kind::Correct => desk_lines::correct_line(line, at),
        Kind::Withdraw => desk_lines::withdraw_line(line, at),
        Kind::Show(view) => desk_lines::show_line(line, at, view),
    }
}
