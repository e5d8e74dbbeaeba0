// What a program does: it reads a sheet from standard input and writes its print to standard output.
#![tactic(auto)]

ghost use Rattle.std.specs.Prelude.{◌≤◌, length};
ghost use Rattle.streams.specs.Reads.{came_to};
ghost use Rattle.pages.specs.Texts.{Shown};
ghost use Rattle.programs.specs.Answers.{answer_text};

// Which print is asked for, by the name of the program.
#[derive(Clone, Copy, PartialEq, Eq)]
pub enum Print {
    Report,
    Report0,
    Resolved,
}

// The text that is to go out, at the front of a page, and how many bytes it has: the print of what was read, or nothing
// where a read failed.
fn answer(print: Print, taken: Result<usize, usize>, space: &[u8], text: &mut [u8]) -> usize
    requires { came_to taken ≤ length space.now }
    ensures { Shown (answer_text print taken space.now) text.old text.new result }
{
    let Ok(count) = taken else {
        return 0;
    };
    let sheet = &space[..count];
    match print {
        Print::Report => pages::sheet_print(sheet, text),
        Print::Report0 => pages::sheet_print0(sheet, text),
        Print::Resolved => pages::unfitted_print(sheet, text),
    }
}

// The whole of a program. Where reading fails it writes nothing to standard output.
pub fn show(rt: &(impl Input + std::io::Print + Eprint), print: Print) {
    let mut space = streams::room();
    let taken = streams::take_in(rt, &mut space);
    let mut text: [u8; pages::PAGE] = arrays::filled(0);
    streams::put_out(rt, answer(print, taken, &space, &mut text), &text);
}
