// What a program for long sheets does: it reads a long sheet from standard input and writes its print to standard output.
#![tactic(auto)]

ghost use Rattle.std.specs.Prelude.{◌≡◌, ◌+◌, ◌≤◌, length};
ghost use Rattle.streams.specs.Reads.{came_to};
ghost use Rattle.pages.specs.Texts.{ShownOn};
ghost use Rattle.long_records.specs.LongForm.{max_long};
ghost use Rattle.long_lines.specs.LongLines.{long_page_size};
ghost use Rattle.long_programs.specs.LongAnswers.{long_answer_text};

use long_pages::LONG_PAGE;
use long_records::MAX_LONG;
use verdict::Rule;

// The text that is to go out, at the front of a long page, and how many bytes it has: the print of what was read, or nothing where a read failed.
fn answer(rule: Rule, taken: Result<usize, usize>, space: &[u8], text: &mut [u8]) -> usize
    requires { came_to taken ≤ length space.now }
    ensures { ShownOn long_page_size (long_answer_text rule taken space.now) text.old text.new result }
{
    let Ok(count) = taken else {
        return 0;
    };
    let sheet = &space[..count];
    match rule {
        Rule::Plain => long_pages::long_print(sheet, text),
        Rule::Drawable => long_pages::long_print0(sheet, text),
    }
}

// The whole of a program. Where reading fails it writes nothing to standard output.
pub fn show(rt: &(impl Input + Print + Eprint), rule: Rule) {
    let mut space: [u8; MAX_LONG + 1] = arrays::filled(0);
    let taken = streams::take_in(rt, &mut space);
    let mut text: [u8; LONG_PAGE] = arrays::filled(0);
    streams::put_out(rt, answer(rule, taken, &space, &mut text), &text);
}
