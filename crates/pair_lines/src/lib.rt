// The print of the pairs of a fit, line by line, into a lent buffer: the bytes of RULES, The pairs of a fit and no other.
#![tactic(auto)]

ghost use Rattle.std.specs.Prelude.{◌≡◌, ℕ, ◌+◌, ◌*◌, ◌-◌, ◌≤◌, ◌<◌, length, get_or};
ghost use Rattle.exact.specs.Table.{entry_of};
ghost use Rattle.matrix.specs.Place.{pair_count};
ghost use Rattle.tree_theory.specs.Chain.{parent_of};
ghost use Rattle.fit_theory.specs.Stands.{Stands};
ghost use Rattle.inner_paths.specs.Between.{Lengthened};
ghost use Rattle.writing.specs.Text.{decimal, Wrote};
ghost use Rattle.names.specs.Record.{name_of};
ghost use Rattle.newick_put.specs.Put.{word_at};
ghost use Rattle.pair_line.specs.Line.{widest_pair, NameThere};
ghost use Rattle.pair_lines.specs.Lines.{pairs_text, pairs_page, NamesFrom, Measuring, row_by, rows_by};

use inner_paths::SPOTS;
use matrix::Matrix;
use verdict::Rule;

// The bytes of a page: the print of every fit has room on one.
pub const PAGE: usize = 262_144;

// The lines of strain i with each later one, by the paths between inner vertices over the lengths and over the rounded ones.
fn row_lines(
    text: &mut [u8],
    at: usize,
    n: usize,
    edges: usize,
    i: usize,
    d: u32,
    distances: &[u16],
    parents: &[u8],
    numerators: &[i64],
    exactly: &[i64; SPOTS],
    rounded: &[i64],
    nearly: &[i64; SPOTS],
    names: &[u8],
    starts: &[usize; Matrix::MAX_STRAINS],
) -> usize
    requires i_lt_n { (i < n) × (length distances.now ≡ pair_count n) }
    requires measuring { Measuring n edges parents.now numerators.now exactly.now }
    requires measuring_2 { Measuring n edges parents.now rounded.now nearly.now }
    requires by_index { (k : ℕ) → k < n → NameThere names.now (get_or starts.now k 0) }
    requires i_in_bounds { at + widest_pair * (n - (i + 1)) ≤ length text.old }
    ensures { Wrote text.old text.new at (row_by (word_at names.now starts.now) n edges distances.now (parent_of parents.now) d (entry_of numerators.now) (entry_of rounded.now) i) result }
{
    let later = n - (i + 1);
    let mut next = at;
    for k in 0..later {
        let j = i + 1 + k;
        next = pair_line::pair_line(
            text,
            next,
            names,
            starts[i],
            starts[j],
            distances[matrix::place(i, j)],
            d,
            inner_paths::path(n, edges, parents, numerators, exactly, i, j),
            inner_paths::path(n, edges, parents, rounded, nearly, i, j),
        );
    }
    next
}

// The rows of all strains.
fn all_rows(
    text: &mut [u8],
    at: usize,
    n: usize,
    edges: usize,
    d: u32,
    distances: &[u16],
    parents: &[u8],
    numerators: &[i64],
    rounded: &[i64],
    names: &[u8],
    starts: &[usize; Matrix::MAX_STRAINS],
) -> usize
    requires distances_len { length distances.now ≡ pair_count n }
    requires lengthened { Lengthened n edges parents.now numerators.now }
    requires lengthened_2 { Lengthened n edges parents.now rounded.now }
    requires by_index { (k : ℕ) → k < n → NameThere names.now (get_or starts.now k 0) }
    requires n_in_bounds { at + widest_pair * pair_count n ≤ length text.old }
    ensures { Wrote text.old text.new at (rows_by (word_at names.now starts.now) n edges distances.now (parent_of parents.now) d (entry_of numerators.now) (entry_of rounded.now)) result }
{
    let mut exactly: [i64; SPOTS] = arrays::filled(0);
    let mut nearly: [i64; SPOTS] = arrays::filled(0);
    inner_paths::fill_paths(n, edges, parents, numerators, &mut exactly);
    inner_paths::fill_paths(n, edges, parents, rounded, &mut nearly);
    let mut next = at;
    for i in 0..n {
        next = row_lines(
            text, next, n, edges, i, d, distances, parents, numerators, &exactly, rounded, &nearly,
            names, starts,
        );
    }
    next
}

// The print of a fit, by names that stand from a place on, at the front of a page.
pub fn pairs_text(
    text: &mut [u8],
    n: u32,
    distances: &[u16],
    parents: &[u8],
    d: u32,
    numerators: &[i64],
    names: &[u8],
    from: usize,
) -> usize
    requires stands { Stands Rule.Plain n distances.now parents.now d numerators.now }
    requires names_from { NamesFrom names.now from n }
    requires pairs_page_in_bounds { pairs_page ≤ length text.old }
    ensures { Wrote text.old text.new 0 (pairs_text (name_of names.now from) n distances.now parents.now d numerators.now) result }
{
    let strains = n as usize;
    let edges = parents.len();
    let rounded = fit_numbers::rounded(edges, d, numerators);
    let starts = names::name_starts(names, from, strains);
    let counts = [n as i64, edges as i64, d as i64];
    let next = lines::line(text, 0, b"fit", &counts);
    all_rows(
        text, next, strains, edges, d, distances, parents, numerators, &rounded, names, &starts,
    )
}

// The same by the numbers of the strains.
pub fn numbered_pairs(
    text: &mut [u8],
    n: u32,
    distances: &[u16],
    parents: &[u8],
    d: u32,
    numerators: &[i64],
) -> usize
    requires stands { Stands Rule.Plain n distances.now parents.now d numerators.now }
    requires pairs_page_in_bounds { pairs_page ≤ length text.old }
    ensures { Wrote text.old text.new 0 (pairs_text decimal n distances.now parents.now d numerators.now) result }
{
    let names = labels::numbers();
    pairs_text(text, n, distances, parents, d, numerators, &names, 0)
}
