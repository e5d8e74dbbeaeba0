// The print of a report, line by line, into a lent buffer: the bytes of RULES, The print and no other. And
// the print of a resolved tree fitted with no proposal.
#![tactic(auto)]

ghost use Rattle.std.specs.Prelude.{◌≡◌, [], ◌∷◌, ◌+◌, ◌*◌, ◌≤◌, pos, length, get_or};
ghost use Rattle.exact.specs.Table.{entry_of};
ghost use Rattle.tree_theory.specs.Limits.{max_edges};
ghost use Rattle.writing.specs.Text.{Wrote};
ghost use Rattle.lines.specs.Lines.{line, fit_word, edge_lines, fit_text, resolved_text};
ghost use Rattle.lines.specs.Page.{page_size, widest};

use mean::Mean;
use tree::Tree;
use verdict::Rule;

// A line for each of the first k edges: the edge, n, m.
fn edge_lines(
    text: &mut [u8],
    at: usize,
    k: usize,
    numerators: &[i64; Tree::MAX_EDGES],
    rounded: &[i64; Tree::MAX_EDGES],
) -> usize
    requires k_le_max_edges { k ≤ max_edges }
    requires room { at + widest * k ≤ length text.old }
    ensures { Wrote text.old text.new at (edge_lines k (λ v. entry_of numerators.now v ∷ entry_of rounded.now v ∷ [])) result }
{
    let mut next = at;
    for v in 0..k {
        let values = [v as i64, numerators[v], rounded[v]];
        next = lines::line(text, next, b"edge", &values);
    }
    next
}

// A line for each of the first k edges: the edge, its numerator and its denominator, m.
fn fraction_lines(
    text: &mut [u8],
    at: usize,
    k: usize,
    tops: &[i64; Tree::MAX_EDGES],
    bottoms: &[u32; Tree::MAX_EDGES],
    rounded: &[i64; Tree::MAX_EDGES],
) -> usize
    requires k_le_max_edges { k ≤ max_edges }
    requires room { at + widest * k ≤ length text.old }
    ensures { Wrote text.old text.new at (edge_lines k (λ v. entry_of tops.now v ∷ pos (get_or bottoms.now v 0) ∷ entry_of rounded.now v ∷ [])) result }
{
    let mut next = at;
    for v in 0..k {
        let values = [v as i64, tops[v], i64::from(bottoms[v]), rounded[v]];
        next = lines::line(text, next, b"edge", &values);
    }
    next
}

// The first line of the print of a fit, at the front of the buffer: its word is that of the rule.
fn fit_line(text: &mut [u8], rule: Rule, n: u32, k: usize, d: u32) -> usize
    requires k_le_max_edges { k ≤ max_edges }
    requires room { widest ≤ length text.old }
    ensures { Wrote text.old text.new 0 (line (fit_word rule) (pos n ∷ pos k ∷ pos d ∷ [])) result }
{
    let counts = [n as i64, k as i64, d as i64];
    match rule {
        Rule::Plain => lines::line(text, 0, b"fit", &counts),
        Rule::Drawable => lines::line(text, 0, b"fit0", &counts),
    }
}

// The whole print of a fit, at the front of the buffer.
pub fn fit_text(
    text: &mut [u8],
    rule: Rule,
    n: u32,
    k: usize,
    d: u32,
    numerators: &[i64; Tree::MAX_EDGES],
    rounded: &[i64; Tree::MAX_EDGES],
    total: i64,
    f: i64,
    r: i64,
    h: i64,
    mean: Mean,
) -> usize
    requires k_le_max_edges { k ≤ max_edges }
    requires room { page_size ≤ length text.old }
    ensures { Wrote text.old text.new 0 (fit_text rule n k d (entry_of numerators.now) (entry_of rounded.now) total f r h mean) result }
{
    let squares = [f, r, h];
    let length = [total];
    let next = fit_line(text, rule, n, k, d);
    let next = edge_lines(text, next, k, numerators, rounded);
    let next = lines::line(text, next, b"length", &length);
    let next = lines::line(text, next, b"square", &squares);
    lines::mean_line(text, next, f, mean)
}

// The whole print of a resolved tree, at the front of the buffer.
pub fn resolved_text(
    text: &mut [u8],
    n: u32,
    k: usize,
    tops: &[i64; Tree::MAX_EDGES],
    bottoms: &[u32; Tree::MAX_EDGES],
    rounded: &[i64; Tree::MAX_EDGES],
    r: i64,
    h: i64,
) -> usize
    requires k_le_max_edges { k ≤ max_edges }
    requires room { page_size ≤ length text.old }
    ensures { Wrote text.old text.new 0 (resolved_text n k (entry_of tops.now) (λ v. get_or bottoms.now v 0) (entry_of rounded.now) r h) result }
{
    let counts = [n as i64, k as i64];
    let squares = [r, h];
    let next = lines::line(text, 0, b"resolved", &counts);
    let next = fraction_lines(text, next, k, tops, bottoms, rounded);
    lines::line(text, next, b"square", &squares)
}
