// Reads sheets from standard input, each led by its length in four bytes, little-endian, and writes a line for each before it reads the
// next: `best` and the number of the shortest tree so far, or `refused`, the number and the place. Input that ends within a length or
// within a sheet gets `refused 2` as its last line. Where reading or writing fails nothing more is read.
#![tactic(auto)]

ghost use Rattle.std.specs.Prelude.{◌≡◌, ◌+◌, ◌^◌, ◌≤◌, ◌<◌, length};
ghost use Rattle.lines.specs.Page.{widest};
ghost use Rattle.records.specs.Form.{max_sheet};
ghost use Rattle.shortest_run.specs.Kept.{Held};
ghost use Rattle.shortest.specs.Goes.{Goes};
ghost use Rattle.shortest.specs.Framed.{came_of, lead_of};

use records::Layout;
use shortest_run::Run;

// The bytes of a length.
const LEAD: usize = 4;

// Room for the longest line.
const LINE: usize = 97;

// What came of the bytes that were due: all of them, fewer because the input ended, or reading failed, which was said.
#[derive(Clone, Copy)]
enum Came {
    Whole,
    Cut,
    Failed,
}

fn what_came(taken: Result<usize, usize>, due: usize) -> Came
    ensures { result ≡ came_of taken due }
{
    match taken {
        Err(_) => Came::Failed,
        Ok(count) if count < due => Came::Cut,
        Ok(_) => Came::Whole,
    }
}

// What stands before a sheet: the end of the run, a length that is cut, or a length.
#[derive(Clone, Copy)]
enum Lead {
    End,
    Broken,
    Length(usize),
}

fn lead_of(taken: Result<usize, usize>, lead: &[u8]) -> Lead
    requires { length lead.now ≡ 4 }
    ensures { result ≡ lead_of taken lead.now }
{
    match taken {
        Err(_) | Ok(0) => Lead::End,
        Ok(count) if count < LEAD => Lead::Broken,
        Ok(_) => Lead::Length(endian::u32_at(lead, 0) as usize),
    }
}

// The input ended within a length or within a sheet, which is said.
fn cut(rt: &(impl Print + Eprint)) {
    let mut text: [u8; LINE] = arrays::filled(0);
    let end = shortest_lines::cut_line(&mut text);
    streams::put_out(rt, end, &text);
}

// A whole sheet: its line goes out before anything more is read. The run behind it, where another is to be read.
fn answered(rt: &(impl Print + Eprint), run: Run, sheet: &[u8]) -> Option<Run>
    requires held { Held run }
    requires count_bound { run.count + 1 < 2 ^ 64 }
    ensures { Goes run result }
{
    let mut text: [u8; LINE] = arrays::filled(0);
    let turn = shortest_run::turn(run, sheet, &mut text);
    if !streams::put_out(rt, turn.end, &text) {
        return None;
    }
    Some(turn.run)
}

// A sheet of as many bytes as there is space for.
fn sheet_in(rt: &(impl Input + Print + Eprint), run: Run, space: &mut [u8]) -> Option<Run>
    requires held { Held run }
    requires count_bound { run.count + 1 < 2 ^ 64 }
    ensures { Goes run result }
{
    let taken = streams::take_in(rt, space);
    match what_came(taken, space.len()) {
        Came::Whole => answered(rt, run, space),
        Came::Cut => {
            cut(rt);
            None
        }
        Came::Failed => None,
    }
}

// A sheet of so many bytes, no more than a sheet may have.
fn short_sheet(rt: &(impl Input + Print + Eprint), run: Run, size: usize) -> Option<Run>
    requires held { Held run }
    requires count_bound { (run.count + 1 < 2 ^ 64) × (size ≤ max_sheet) }
    ensures { Goes run result }
{
    let mut space = streams::room();
    sheet_in(rt, run, &mut space[..size])
}

// Reads so many bytes, no more than a sheet may have, and keeps none of them.
fn piece_passed(rt: &(impl Input + Eprint), size: usize) -> Came
    requires { size ≤ max_sheet }
{
    let mut space = streams::room();
    let taken = streams::take_in(rt, &mut space[..size]);
    what_came(taken, size)
}

// The same of any number of bytes, piece by piece.
fn passed_by(rt: &(impl Input + Eprint), size: usize) -> Came {
    let mut left = size;
    // Pieces of a sheet's length, and the rest; no index is counted.
    while 0 < left {
        let piece = left.min(Layout::MAX_SHEET);
        match piece_passed(rt, piece) {
            Came::Whole => {
                left -= piece;
            }
            Came::Cut => {
                return Came::Cut;
            }
            Came::Failed => {
                return Came::Failed;
            }
        }
    }
    Came::Whole
}

// A sheet of so many bytes, more than a sheet may have. All such sheets are answered alike, whatever their bytes: this one is answered
// by zeros, one more than a sheet may have.
fn long_sheet(rt: &(impl Input + Print + Eprint), run: Run, size: usize) -> Option<Run>
    requires held { Held run }
    requires count_bound { run.count + 1 < 2 ^ 64 }
    ensures { Goes run result }
{
    match passed_by(rt, size) {
        Came::Whole => {
            let space = streams::room();
            answered(rt, run, &space)
        }
        Came::Cut => {
            cut(rt);
            None
        }
        Came::Failed => None,
    }
}

// A sheet of so many bytes.
fn sized_sheet(rt: &(impl Input + Print + Eprint), run: Run, size: usize) -> Option<Run>
    requires held { Held run }
    requires count_bound { run.count + 1 < 2 ^ 64 }
    ensures { Goes run result }
{
    if size > Layout::MAX_SHEET {
        return long_sheet(rt, run, size);
    }
    short_sheet(rt, run, size)
}

// The next sheet of standard input, with its length before it, or the end.
fn next_sheet(rt: &(impl Input + Print + Eprint), run: Run) -> Option<Run>
    requires held { Held run }
    requires count_bound { run.count + 1 < 2 ^ 64 }
    ensures { Goes run result }
{
    let mut lead = [0; LEAD];
    let taken = streams::take_in(rt, &mut lead);
    match lead_of(taken, &lead) {
        Lead::End => None,
        Lead::Broken => {
            cut(rt);
            None
        }
        Lead::Length(size) => sized_sheet(rt, run, size),
    }
}

// Sheet after sheet. Each takes a number below 2^64, and a run of so many sheets ends there.
fn main(rt: HostRuntime) {
    let mut run = shortest_run::start();
    for _sheet in 0..u64::MAX {
        let Some(next) = next_sheet(&rt, run) else {
            return;
        };
        run = next;
    }
}
