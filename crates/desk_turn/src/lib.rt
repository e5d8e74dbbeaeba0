// What a desk answers to a line (RULES, The desk's lines): the text at the front of a page, and the desk after it.
#![tactic(auto)]

ghost use Rattle.std.specs.Prelude.{◌≤◌, length};
ghost use Rattle.pair_lines.specs.Lines.{pairs_page};
ghost use Rattle.desk_text.specs.Meaning.{max_words, meaning_of};
ghost use Rattle.desk.specs.Held.{Held};
ghost use Rattle.desk_answers.specs.Telling.{Responds};

use desk::Desk;
use desk_answers::Told;

// The answer to a line, with room for the tables that it may have.
pub fn tell(
    desk: Desk,
    line: &[u8],
    numbers: &mut [u16],
    distances: &mut [u16],
    parents: &mut [u8],
    numerators: &mut [i64],
    page: &mut [u8],
) -> Told
    requires held { Held desk }
    requires max_words_in_bounds { (max_words ≤ length numbers.old) × (max_words ≤ length distances.old) × (max_words ≤ length parents.old) × (max_words ≤ length numerators.old) × (pairs_page ≤ length page.old) }
    ensures { Responds desk (meaning_of line.now) page.old page.new result }
{
    let meaning = desk_meaning::read_line(line, numbers, distances, parents, numerators);
    desk_answers::respond(desk, meaning, distances, parents, numerators, page)
}
