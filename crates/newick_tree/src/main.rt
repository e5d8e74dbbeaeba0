// Reads a names record with a tree in text right behind it from standard input and prints the tree's table, or `refused`, the number and the
// place. Where reading fails it prints nothing.
#![tactic(auto)]

ghost use Rattle.std.specs.Prelude.{◌≡◌, [], ◌∷◌, ◌+◌, ◌*◌, ◌≤◌, pos, length, take, IfOk};
ghost use Rattle.matrix.specs.Limits.{max_strains};
ghost use Rattle.tree_theory.specs.Limits.{max_edges};
ghost use Rattle.writing.specs.Text.{Wrote};
ghost use Rattle.lines.specs.Lines.{edge_lines};
ghost use Rattle.lines.specs.Page.{page_size, widest};
ghost use Rattle.newick_tree.specs.Tree.{input_size, record_end, row_of, tree_lines, survey_text, Printed};

use matrix::Matrix;
use newick_survey::Survey;
use newick_words::MAX_TEXT;
use records::Layout;
use tree::Tree;
use verdict::Refusal;

// How much of the input is looked at: the longest names record that passes, the longest text, and a byte more, so that a longer text is
// refused for its length.
const INPUT: usize = Layout::HEAD + (Layout::MAX_NAME + 1) * Matrix::MAX_STRAINS + MAX_TEXT + 1;

// Where the names record ends: where its length says, or with the input where it is cut.
fn record_end(s: &[u8]) -> usize
    ensures { (result ≡ record_end s.now) × (result ≤ length s.now) }
{
    if s.len() < Layout::HEAD {
        return s.len();
    }
    let end = Layout::HEAD + endian::u32_at(s, 0) as usize;
    if s.len() < end {
        return s.len();
    }
    end
}

// A number as a field of a line.
fn whole(x: u8) -> i64
    ensures { result ≡ pos x }
{
    x as i64
}

// A line for each of the first k edges: the edge, its parent, its thousandths.
fn edge_lines(
    text: &mut [u8],
    at: usize,
    k: usize,
    parents: &[u8; Tree::MAX_EDGES],
    thousandths: &[i64; Tree::MAX_EDGES],
) -> usize
    requires k_le_max_edges { k ≤ max_edges }
    requires room { at + widest * k ≤ length text.old }
    ensures { Wrote text.old text.new at (edge_lines k (row_of parents.now thousandths.now)) result }
{
    let mut next = at;
    for v in 0..k {
        let values = [v as i64, whole(parents[v]), thousandths[v]];
        next = lines::line(text, next, b"edge", &values);
    }
    next
}

// The whole print of a tree, at the front of the buffer.
fn tree_lines(
    text: &mut [u8],
    n: usize,
    k: usize,
    parents: &[u8; Tree::MAX_EDGES],
    thousandths: &[i64; Tree::MAX_EDGES],
) -> usize
    requires n_le_max_strains { (n ≤ max_strains) × (k ≤ max_edges) }
    requires room { page_size ≤ length text.old }
    ensures { Wrote text.old text.new 0 (tree_lines n k parents.now thousandths.now) result }
{
    let counts = [n as i64, k as i64];
    let next = lines::line(text, 0, b"tree", &counts);
    edge_lines(text, next, k, parents, thousandths)
}

// The print of what a text shows: its table, or the line of the refusal.
fn survey_text(found: &Result<Survey, Refusal>, text: &mut [u8]) -> usize
    requires strains_le_max_strains { IfOk found.now (λ v. (v.strains ≤ max_strains) × (v.edges ≤ max_edges)) }
    requires room { page_size ≤ length text.old }
    ensures { Wrote text.old text.new 0 (survey_text found.now) result }
{
    match found {
        Ok(tree) => tree_lines(
            text,
            tree.strains,
            tree.edges,
            &tree.parents,
            &tree.numerators,
        ),
        Err(refusal) => lines::refused_line(text, 0, u32::from(refusal.reason), refusal.place),
    }
}

// The answer to an input.
fn answer(s: &[u8], text: &mut [u8]) -> usize
    requires { page_size ≤ length text.old }
    ensures { Printed s.now text.old text.new result }
{
    let end = record_end(s);
    survey_text(&newick_survey::survey_text(&s[..end], &s[end..]), text)
}

fn main(rt: HostRuntime) {
    let mut space: [u8; INPUT] = arrays::filled(0);
    if let Ok(count) = streams::take_in(&rt, &mut space) {
        let mut out: [u8; pages::PAGE] = arrays::filled(0);
        streams::put_out(&rt, answer(&space[..count], &mut out), &out);
    }
}
