// What stands behind a line's first word, read from its bytes: a call whose tables stand at the front of lent ones, or nothing that has a form.
#![tactic(auto)]

ghost use Rattle.std.specs.Prelude.{◌≡◌, List, ℕ, ◌≤◌, ℤ, length};
ghost use Rattle.desk_theory.specs.Desk.{withdraw};
ghost use Rattle.desk_text.specs.Meaning.{call, shows, max_line, max_words, post_in, propose_in, correct_in, bench_in};
ghost use Rattle.desk_words.specs.Reads.{words_at};
ghost use Rattle.desk_lines.specs.Lines.{BenchRead, LineIs};

use desk_posts::Post;
use desk_text::View;

// A correction.
#[derive(Clone, Copy)]
pub struct Correct {
    pub i: u32,
    pub j: u32,
    pub far: u16,
}

// A proposal: a bench, D, and how many numerators stand at the front of their table.
#[derive(Clone, Copy)]
pub struct Propose {
    pub bench: u32,
    pub d: u32,
    pub count: usize,
}

// What is to be shown, and of which bench's table.
#[derive(Clone, Copy)]
pub struct Show {
    pub view: View,
    pub bench: u32,
}

// What a line is that has a form.
#[derive(Clone, Copy)]
pub enum Line {
    Silent,
    Posting(Post),
    Correcting(Correct),
    Proposing(Propose),
    Withdrawing(u32),
    Showing(Show),
}

// Behind "post"; none where what stands there has no form, and so for the others.
pub fn posting_line(
    line: &[u8],
    at: usize,
    numbers: &mut [u16],
    distances: &mut [u16],
    parents: &mut [u8],
) -> Option<Line>
    requires { (at ≤ length line.now) × (length line.now ≤ max_line) × (max_words ≤ length numbers.old) × (max_words ≤ length distances.old) × (max_words ≤ length parents.old) }
    ensures { (ns : List ℤ) → LineIs (post_in (words_at line.now at)) distances.new parents.new ns result }
{
    let post = desk_posts::post_line(line, at, numbers, distances, parents)?;
    Some(Line::Posting(post))
}

// Behind "propose".
pub fn propose_line(line: &[u8], at: usize, numerators: &mut [i64]) -> Option<Line>
    requires { (at ≤ length line.now) × (length line.now ≤ max_line) × (max_words ≤ length numerators.old) }
    ensures { (ds ps : List ℕ) → LineIs (propose_in (words_at line.now at)) ds ps numerators.new result }
{
    let bench = desk_words::number_at(line, at).ok()?;
    let d = desk_words::number_at(line, bench.end).ok()?;
    let taken = desk_words::numerators(line, d.end, numerators);
    if !desk_posts::over(line, taken.end) {
        return None;
    }
    Some(Line::Proposing(Propose {
        bench: desk_posts::word(bench.value),
        d: desk_posts::word(d.value),
        count: taken.count,
    }))
}

// Behind "correct".
pub fn correct_line(line: &[u8], at: usize) -> Option<Line>
    requires { at ≤ length line.now }
    ensures { (ds ps : List ℕ) (ns : List ℤ) → LineIs (correct_in (words_at line.now at)) ds ps ns result }
{
    let i = desk_words::number_at(line, at).ok()?;
    let j = desk_words::number_at(line, i.end).ok()?;
    let far = desk_words::number_at(line, j.end).ok()?;
    if !desk_posts::over(line, far.end) {
        return None;
    }
    Some(Line::Correcting(Correct {
        i: desk_posts::word(i.value),
        j: desk_posts::word(j.value),
        far: desk_words::field(far.value, 65535, 65534) as u16,
    }))
}

// The bench behind "withdraw", "report" and "pairs", where it is all that is left of the line.
fn bench_of(line: &[u8], at: usize) -> Option<u32>
    requires { at ≤ length line.now }
    ensures { BenchRead (words_at line.now at) result }
{
    let bench = desk_words::number_at(line, at).ok()?;
    if !desk_posts::over(line, bench.end) {
        return None;
    }
    Some(desk_posts::word(bench.value))
}

// Behind "withdraw".
pub fn withdraw_line(line: &[u8], at: usize) -> Option<Line>
    requires { at ≤ length line.now }
    ensures { (ds ps : List ℕ) (ns : List ℤ) → LineIs (bench_in (λ b. call (withdraw b)) (words_at line.now at)) ds ps ns result }
{
    let bench = bench_of(line, at)?;
    Some(Line::Withdrawing(bench))
}

// Behind "report" and "pairs".
pub fn show_line(line: &[u8], at: usize, view: View) -> Option<Line>
    requires { at ≤ length line.now }
    ensures { (ds ps : List ℕ) (ns : List ℤ) → LineIs (bench_in (shows view) (words_at line.now at)) ds ps ns result }
{
    let bench = bench_of(line, at)?;
    Some(Line::Showing(Show { view, bench }))
}
