// A run of sheets (RULES, Which of two trees is shorter): what is kept between two sheets, by value, one sheet of the run, and the line
// that it gets. `Keeps`, in specs/Kept.antt, says which state of the definitions a value is.
#![tactic(auto)]

ghost use Rattle.std.specs.Prelude.{◌≡◌, ◌+◌, ◌^◌, ◌≤◌, ◌<◌, length, Some, None};
ghost use Rattle.lines.specs.Page.{widest};
ghost use Rattle.records.specs.Form.{max_sheet};
ghost use Rattle.shortest_theory.specs.Run.{start};
ghost use Rattle.shortest_run.specs.Kept.{held_bytes, Keeps, Held, Won, Steps, Turned};

use planner::Winner;
use records::Layout;
use verdict::{Refusal, Rule};

// The winner among the sheets so far: its number, its length, and its bytes with zeros behind.
#[derive(Clone, Copy)]
pub struct Best {
    pub number: u64,
    pub length: usize,
    pub bytes: [u8; Layout::MAX_SHEET],
}

// How many sheets have come, and the winner among them.
#[derive(Clone, Copy)]
pub struct Run {
    pub count: u64,
    pub best: Option<Best>,
}

// The answer to a sheet, which is the winner's number where the sheet is accepted, and the run behind it.
#[derive(Clone, Copy)]
pub struct Stepped {
    pub best: Result<u64, Refusal>,
    pub run: Run,
}

// The run behind a sheet, and where the sheet's line ends in the text.
#[derive(Clone, Copy)]
pub struct Answered {
    pub run: Run,
    pub end: usize,
}

// Before the first sheet.
pub fn start() -> Run
    ensures { Keeps start result }
{
    Run {
        count: 0,
        best: None,
    }
}

// The bytes of a sheet, then zeros.
fn held(sheet: &[u8]) -> [u8; Layout::MAX_SHEET]
    requires { length sheet.now ≤ max_sheet }
    ensures { result ≡ held_bytes sheet.now }
{
    let mut bytes: [u8; Layout::MAX_SHEET] = arrays::filled(0);
    for (k, byte) in sheet.iter().enumerate() {
        bytes[k] = *byte;
    }
    bytes
}

// A sheet that is the winner from now on, with the number that it takes.
fn taken_up(number: u64, sheet: &[u8]) -> Best
    requires { length sheet.now ≤ max_sheet }
    ensures { Won number sheet.now result }
{
    Best {
        number,
        length: sheet.len(),
        bytes: held(sheet),
    }
}

// A sheet while there is no winner: the first that is accepted. A refused one takes a number, and that is all.
fn opened(count: u64, sheet: &[u8]) -> Stepped
    requires { count + 1 < 2 ^ 64 }
    ensures { Steps (record { count = count; best = None }) sheet.now result }
{
    match sheet::sheet_judge(Rule::Plain, sheet) {
        Err(refusal) => Stepped {
            best: Err(refusal),
            run: Run {
                count: count + 1,
                best: None,
            },
        },
        Ok(()) => Stepped {
            best: Ok(count),
            run: Run {
                count: count + 1,
                best: Some(taken_up(count, sheet)),
            },
        },
    }
}

// A sheet beside the winner, which it leaves as it was unless its tree is shorter.
fn compared(count: u64, best: Best, sheet: &[u8]) -> Stepped
    requires held { Held (record { count = count; best = Some best }) }
    requires count_bound { count + 1 < 2 ^ 64 }
    ensures { Steps (record { count = count; best = Some best }) sheet.now result }
{
    let length = best.length;
    match planner::choose(&best.bytes[..length], sheet) {
        Err(refusal) => Stepped {
            best: Err(refusal),
            run: Run {
                count: count + 1,
                best: Some(best),
            },
        },
        Ok(Winner::First) => Stepped {
            best: Ok(best.number),
            run: Run {
                count: count + 1,
                best: Some(best),
            },
        },
        Ok(Winner::Second) => Stepped {
            best: Ok(count),
            run: Run {
                count: count + 1,
                best: Some(taken_up(count, sheet)),
            },
        },
    }
}

// One sheet of the run: its answer, and the run behind it.
pub fn step(run: Run, sheet: &[u8]) -> Stepped
    requires held { Held run }
    requires count_bound { run.count + 1 < 2 ^ 64 }
    ensures { Steps run sheet.now result }
{
    match run.best {
        Some(best) => compared(run.count, best, sheet),
        None => opened(run.count, sheet),
    }
}

// One sheet of the run and its line, at the front of a text.
pub fn turn(run: Run, sheet: &[u8], text: &mut [u8]) -> Answered
    requires held { Held run }
    requires count_bound { (run.count + 1 < 2 ^ 64) × (widest ≤ length text.old) }
    ensures { Turned run sheet.now text.old text.new result }
{
    let after = step(run, sheet);
    Answered {
        run: after.run,
        end: shortest_lines::answer_line(after.best, text),
    }
}
