// Reads calls on a desk from standard input and answers each: `ok`, the report, or `refused`, the number and the place. A call is a head of
// sixteen bytes, its kind and three numbers of four bytes, little-endian, and behind it what it holds:
//     0  an empty desk from here on; no answer
//     1  post N, so many distances (2 bytes each, in the matrix's order), so many parents (1 each)
//     2  correct two strains and the distance, whose lowest two bytes count
//     3  propose a bench, D, so many numerators (8 each)
//     4  withdraw a bench
//     5  report a bench, a buffer of so many entries, at most 125
#![tactic(auto)]

ghost use Rattle.std.specs.Prelude.{◌≡◌, ◌+◌, ◌*◌, ◌≤◌, ◌<◌, length, IfOk, IfSome};
ghost use Rattle.matrix.specs.Limits.{max_pairs};
ghost use Rattle.tree_theory.specs.Limits.{max_edges};
ghost use Rattle.lines.specs.Page.{page_size};
ghost use Rattle.desk.specs.Held.{Held};

use desk::Desk;
use matrix::Matrix;
use sheet::SheetFit;
use tree::Tree;
use verdict::{Refusal, Rule, Verdict};

// The most bytes that are read, of all the calls together.
const CALLS: usize = 524_288;

// How many bytes stand behind a call's head.
fn behind(kind: u32, b: u32, c: u32) -> usize {
    if kind == 1 {
        return 2 * b as usize + c as usize;
    }
    if kind == 3 {
        return 8 * c as usize;
    }
    0
}

// The distances of a posting, then zeros.
fn distances_of(rest: &[u8], count: usize) -> [u16; Matrix::MAX_PAIRS]
    requires { (count ≤ max_pairs) × (2 * count ≤ length rest.now) }
    ensures { max_pairs ≡ length result }
{
    let mut held: [u16; Matrix::MAX_PAIRS] = arrays::filled(0);
    for k in 0..count {
        held[k] = endian::u16_at(rest, 2 * k);
    }
    held
}

fn posted(n: u32, pairs: usize, rest: &[u8]) -> Result<Desk, Refusal>
    requires { (pairs ≤ max_pairs) × (2 * pairs ≤ length rest.now) }
    ensures { IfOk result (λ d. Held d) }
{
    let held = distances_of(rest, pairs);
    let start = 2 * pairs;
    desk_posting::post(n, &held[..pairs], &rest[start..])
}

fn proposed(desk: Desk, bench: u32, d: u32, count: usize, rest: &[u8]) -> Result<Desk, Refusal>
    requires held { Held desk }
    requires count_le_max_edges { (count ≤ max_edges) × (8 * count ≤ length rest.now) }
    ensures { IfOk result (λ d. Held d) }
{
    let held = decoding::numerators(rest, 0, count);
    desk_benches::propose(desk, bench, d, &held[..count])
}

// A call that may change the desk.
fn called(desk: Desk, kind: u32, a: u32, b: u32, c: u32, rest: &[u8]) -> Result<Desk, Refusal>
    requires { Held desk }
    ensures { IfOk result (λ d. Held d) }
{
    if kind == 1 {
        let pairs = (b as usize).min(Matrix::MAX_PAIRS).min(rest.len() / 2);
        return posted(a, pairs, rest);
    }
    if kind == 2 {
        return desk_posting::correct(desk, a, b, (c % 65536) as u16);
    }
    if kind == 3 {
        let count = (c as usize).min(Tree::MAX_EDGES).min(rest.len() / 8);
        return proposed(desk, a, b, count, rest);
    }
    desk_benches::withdraw(desk, a)
}

// The line of an answer that is no report; its end.
fn line_of(verdict: Verdict, text: &mut [u8]) -> usize
    requires { page_size ≤ length text.old }
    ensures { (result ≤ length text.new) × (length text.new ≡ length text.old) }
{
    match verdict {
        Ok(()) => writing::put_word(text, 0, b"ok\n"),
        Err(refusal) => {
            let place = refusal.place;
            lines::refused_line(text, 0, u32::from(refusal.reason), place)
        }
    }
}

// The report of a bench with a buffer of so many entries, and its two tables.
fn report_of(desk: Desk, bench: u32, size: usize) -> Result<SheetFit, Refusal>
    requires held { Held desk }
    requires size_le_max_edges { size ≤ max_edges }
    ensures { IfOk result (λ x. x.report.edges ≤ max_edges) }
{
    let standing = desk::standing_for(desk, bench)?;
    let numerators = standing.table.numerators;
    let mut rounded: [i64; Tree::MAX_EDGES] = arrays::filled(0);
    let report = desk_report::report(desk, bench, &mut rounded[..size])?;
    Ok(SheetFit {
        report,
        numerators,
        rounded,
    })
}

// The report, or its refusal; whether it went out.
fn reported(rt: &(impl Print + Eprint), desk: Desk, bench: u32, size: usize) -> bool
    requires held { Held desk }
    requires size_le_max_edges { size ≤ max_edges }
{
    let mut text: [u8; pages::PAGE] = arrays::filled(0);
    let end = answer_lines::report_text(Rule::Plain, &report_of(desk, bench, size), &mut text);
    streams::put_out(rt, end, &text)
}

// The desk after a turn, where its answer went out.
fn turned(
    rt: &(impl Print + Eprint),
    desk: Desk,
    kind: u32,
    a: u32,
    b: u32,
    c: u32,
    rest: &[u8],
) -> Option<Desk>
    requires { Held desk }
    ensures { IfSome result (λ d. Held d) }
{
    if kind == 0 {
        return Some(desk::empty());
    }
    if kind == 5 {
        if !reported(rt, desk, a, (b as usize).min(Tree::MAX_EDGES)) {
            return None;
        }
        return Some(desk);
    }
    let answer = called(desk, kind, a, b, c, rest);
    let mut text: [u8; pages::PAGE] = arrays::filled(0);
    let end = line_of(answer.and(Ok(())), &mut text);
    if !streams::put_out(rt, end, &text) {
        return None;
    }
    Some(answer.unwrap_or(desk))
}

// Every whole call in turn, up to the first whose answer cannot be written.
fn run(rt: &(impl Print + Eprint), s: &[u8]) {
    let mut desk = desk::empty();
    let mut at = 0;
    // A call says where the next begins.
    while at + 16 <= s.len() {
        let kind = endian::u32_at(s, at);
        let a = endian::u32_at(s, at + 4);
        let b = endian::u32_at(s, at + 8);
        let c = endian::u32_at(s, at + 12);
        let start = at + 16;
        let end = start + behind(kind, b, c).min(s.len() - start);
        let Some(next) = turned(rt, desk, kind, a, b, c, &s[start..end]) else {
            return;
        };
        desk = next;
        at = end;
    }
}

fn main(rt: HostRuntime) {
    let mut space: [u8; CALLS] = arrays::filled(0);
    if let Ok(count) = streams::take_in(&rt, &mut space) {
        run(&rt, &space[..count]);
    }
}
