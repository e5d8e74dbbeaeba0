// Reads from standard input a length in four bytes, little-endian, a sheet without lengths of that length, and behind it corrections of six
// bytes each: two strains and a distance, two bytes each, little-endian. Prints `posted`, or the refusal of the matrix with the tree and nothing
// more; a line for each correction, `ok` or its refusal; in the end for each edge its kept split sum and count, and each pair's distance
// as it then stands, the pairs in rows. A last correction that is cut short is none.
#![tactic(auto)]

ghost use Rattle.std.specs.Prelude.{◌≡◌, ◌+◌, ◌≤◌, ◌<◌, length};
ghost use Rattle.matrix.specs.Limits.{max_strains};
ghost use Rattle.matrix.specs.Place.{pair_count};
ghost use Rattle.tree_theory.specs.Limits.{max_edges};
ghost use Rattle.fit_theory.specs.Stands.{Posted};
ghost use Rattle.correction_theory.specs.Kept.{Beside};

use tree::Tree;
use verdict::Verdict;

// The most bytes that are read.
const INPUT: usize = 524_288;

// The bytes of a correction: two strains and a distance.
const CORRECTION: usize = 6;

// Room for the longest line.
const LINE: usize = 128;

// A word, or the line of a refusal, at the front of a text.
fn answer_line(answer: Verdict, word: &[u8], text: &mut [u8; LINE]) -> usize
    requires { (length word.now ≤ 8) × (length text.old ≡ 128) }
    ensures { (result ≤ 128) × (length text.new ≡ 128) }
{
    match answer {
        Err(refusal) => lines::refused_line(text, 0, u32::from(refusal.reason), refusal.place),
        Ok(()) => lines::line(text, 0, word, &[]),
    }
}

// Writes out a word, or the line of a refusal; whether it went out.
fn print_answer(rt: &(impl Print + Eprint), answer: Verdict, word: &[u8]) -> bool
    requires { length word.now ≤ 8 }
{
    let mut text: [u8; LINE] = arrays::filled(0);
    let written = answer_line(answer, word, &mut text);
    streams::put_out(rt, written, &text)
}

// Writes out a word and three numbers; whether they went out.
fn print_numbers(rt: &(impl Print + Eprint), word: &[u8], values: &[i64; 3]) -> bool
    requires { length word.now ≤ 8 }
{
    let mut text: [u8; LINE] = arrays::filled(0);
    let written = lines::line(&mut text, 0, word, values);
    streams::put_out(rt, written, &text)
}

// A line for each edge: the edge, its sum, its count; whether all went out.
fn print_edges(
    rt: &(impl Print + Eprint),
    edges: usize,
    sums: &[i64; Tree::MAX_EDGES],
    counts: &[i64; Tree::MAX_EDGES],
) -> bool
    requires { edges ≤ max_edges }
{
    for v in 0..edges {
        let values = [v as i64, sums[v], counts[v]];
        if !print_numbers(rt, b"edge", &values) {
            return false;
        }
    }
    true
}

// A distance as a number of a line.
fn whole(x: u16) -> i64 {
    x as i64
}

// A line for each pair of strain i with a later one; whether all went out.
fn print_row(rt: &(impl Print + Eprint), n: usize, distances: &[u16], i: usize) -> bool
    requires { (n ≤ max_strains) × (i < n) × (length distances.now ≡ pair_count n) }
{
    for j in i + 1..n {
        let values = [i as i64, j as i64, whole(distances[matrix::place(i, j)])];
        if !print_numbers(rt, b"pair", &values) {
            return false;
        }
    }
    true
}

// A line for each pair, in rows.
fn print_pairs(rt: &(impl Print + Eprint), n: usize, distances: &[u16])
    requires { (n ≤ max_strains) × (length distances.now ≡ pair_count n) }
{
    for i in 0..n {
        if !print_row(rt, n, distances, i) {
            return;
        }
    }
}

// Every correction of a list, one behind the other, with a line for each; whether all went out.
fn correct_all(
    rt: &(impl Print + Eprint),
    n: u32,
    distances: &mut [u16],
    parents: &[u8],
    sums: &mut [i64; Tree::MAX_EDGES],
    counts: &mut [i64; Tree::MAX_EDGES],
    list: &[u8],
) -> bool
    requires { Beside n distances.old parents.now sums.old counts.old }
    ensures { Beside n distances.new parents.now sums.new counts.new }
{
    for correction in list.chunks_exact(CORRECTION) {
        let i = endian::u16_at(correction, 0) as u32;
        let j = endian::u16_at(correction, 2) as u32;
        let far = endian::u16_at(correction, 4);
        let answer = correcting::correct(n, distances, parents, sums, counts, i, j, far);
        if !print_answer(rt, answer, b"ok") {
            return false;
        }
    }
    true
}

// What a list of corrections to a matrix and a tree that pass gets.
fn work(rt: &(impl Print + Eprint), n: u32, distances: &mut [u16], parents: &[u8], list: &[u8])
    requires { Posted n distances.old parents.now }
{
    let kept = keeping::fresh(n, distances, parents);
    let mut sums = kept.sums;
    let mut counts = kept.counts;
    if correct_all(rt, n, distances, parents, &mut sums, &mut counts, list) {
        if print_edges(rt, parents.len(), &sums, &counts) {
            print_pairs(rt, n as usize, distances);
        }
    }
}

// What a matrix, a tree and a list of corrections get.
fn answer(rt: &(impl Print + Eprint), n: u32, distances: &mut [u16], parents: &[u8], list: &[u8]) {
    let posted = posting::check_posting(n, distances, parents);
    if !print_answer(rt, posted, b"posted") {
        return;
    }
    if let Ok(()) = posted {
        work(rt, n, distances, parents, list);
    }
}

// The same of a sheet without lengths: its refusal, or what its tables get.
fn answer_sheet(rt: &(impl Print + Eprint), sheet: &[u8], list: &[u8]) {
    match reading::read(sheet, 2) {
        Err(refusal) => {
            print_answer(rt, Err(refusal), b"");
        }
        Ok(read) => {
            let mut distances = read.distances;
            answer(
                rt,
                read.strains,
                &mut distances[..read.pairs],
                &sheet[read.parents..read.end],
                list,
            );
        }
    }
}

// Where the sheet ends that starts behind a length: no further than the input.
fn sheet_end(s: &[u8]) -> usize
    requires { 4 ≤ length s.now }
    ensures { (4 ≤ result) × (result ≤ length s.now) }
{
    let size = endian::u32_at(s, 0) as usize;
    let left = s.len() - 4;
    if size < left {
        return 4 + size;
    }
    s.len()
}

// The same of the whole input; nothing of one that has no length.
fn answer_input(rt: &(impl Print + Eprint), s: &[u8]) {
    if s.len() < 4 {
        return;
    }
    let end = sheet_end(s);
    answer_sheet(rt, &s[4..end], &s[end..]);
}

fn main(rt: HostRuntime) {
    let mut space: [u8; INPUT] = arrays::filled(0);
    if let Ok(count) = streams::take_in(&rt, &mut space) {
        answer_input(&rt, &space[..count]);
    }
}
