// A text beside a names record, gone through once: what they are refused for, or how many strains and edges there are and the tables. The
// form is judged first and the leaves are counted, so that the filling, which calls itself for each vertex, meets few.
#![tactic(auto)]

ghost use Rattle.std.specs.Prelude.{◌≡◌, false, ◌≤◌, eqb, length, get_or};
ghost use Rattle.verdict.specs.Answer.{answer_of};
ghost use Rattle.verdict.specs.Table.{some};
ghost use Rattle.matrix.specs.Limits.{max_strains};
ghost use Rattle.matrix.specs.Tests.{strains_out};
ghost use Rattle.tree_theory.specs.Limits.{max_edges};
ghost use Rattle.records.specs.Names.{name_start};
ghost use Rattle.records.specs.Form.{head_size};
ghost use Rattle.names.specs.Record.{place_of};
ghost use Rattle.newick_text.specs.Tree.{Row, Text};
ghost use Rattle.newick_form.specs.Form.{Found};
ghost use Rattle.newick_survey.specs.Text.{table_tests, Entered, TextSurvey, Surveyed};

use matrix::Matrix;
use newick_words::THOUSAND;
use records::Layout;
use tree::Tree;
use verdict::{Place, Reason, Refusal, Verdict};

// 6: whether a count is not one of strains.
fn strains_out(n: usize) -> bool
    ensures { result ≡ strains_out n }
{
    if n < Matrix::MIN_STRAINS {
        return true;
    }
    n > Matrix::MAX_STRAINS
}

// What a text shows: how many strains its tree has and how many edges, and its parents and numerators, each in a table for as many edges
// as a tree may have.
#[derive(Clone, Copy)]
pub struct Survey {
    pub strains: usize,
    pub edges: usize,
    pub parents: [u8; Tree::MAX_EDGES],
    pub numerators: [i64; Tree::MAX_EDGES],
}

// The tables of a text of the form, where the root's number is how many edges there are and the `n` names of a record are known to stand in it.
fn fill_tables(names: &[u8], n: usize, text: &[u8]) -> Survey
    requires n_le_max_strains { (n ≤ max_strains) × (name_start names.now head_size n ≤ length names.now) }
    requires found { Found text.now }
    ensures { (r : Row) → Text text.now r → Entered (place_of names.now head_size n) n r result }
{
    let mut parents: [u8; Tree::MAX_EDGES] = arrays::filled(0);
    let mut numerators: [i64; Tree::MAX_EDGES] = arrays::filled(0);
    let firsts = name_keys::first_strains(names, Layout::HEAD, n);
    let starts = names::name_starts(names, Layout::HEAD, n);
    let root = newick_fill::children(
        text,
        1,
        n,
        names,
        n,
        &firsts,
        &starts,
        &mut parents,
        &mut numerators,
    );
    Survey {
        strains: n,
        edges: root.number,
        parents,
        numerators,
    }
}

// Whether one of the first entries of a table of parents is still 0.
fn unused(parents: &[u8], n: usize) -> bool
    requires { n ≤ length parents.now }
    ensures { result ≡ some n (λ i. eqb (get_or parents.now i 0) 0) }
{
    for i in 0..n {
        if parents[i] == 0 {
            return true;
        }
    }
    false
}

// 8, 10, 13: the tree and the lengths as they are asked anywhere.
fn judged(n: usize, found: &Survey) -> Verdict
    requires { (n ≤ max_strains) × (length found.now.parents ≡ max_edges) × (length found.now.numerators ≡ max_edges) }
    ensures { answer_of result ≡ table_tests n found.now.edges found.now.parents found.now.numerators }
{
    let edges = found.edges;
    refusing::test(Reason::Vertices, edges > Tree::MAX_EDGES)?;
    tree::check_tree(n as u32, &found.parents[..edges])?;
    lengths::check_lengths(edges, THOUSAND, &found.numerators[..edges])
}

// The refusals of a text that is not of the form, and of one that does not name each strain once.
const NOT_OF_THE_FORM: Refusal = Refusal {
    reason: Reason::Newick,
    place: Place::Nowhere,
};

const OTHER_NAMES: Refusal = Refusal {
    reason: Reason::Names,
    place: Place::Nowhere,
};

// 28, 29, 8, 10, 13, the first that applies to a text beside the `n` names of a record.
fn of_text(names: &[u8], n: usize, text: &[u8]) -> Result<Survey, Refusal>
    requires { (strains_out n ≡ false) × (name_start names.now head_size n ≤ length names.now) }
    ensures { TextSurvey (place_of names.now head_size n) n text.now result }
{
    if !newick_form::is_text(text) {
        return Err(NOT_OF_THE_FORM);
    }
    if !newick_form::count_is(text, b',', n - 1) {
        return Err(OTHER_NAMES);
    }
    let found = fill_tables(names, n, text);
    if unused(&found.parents, n) {
        return Err(OTHER_NAMES);
    }
    judged(n, &found)?;
    Ok(found)
}

// What a text beside a names record shows, or the refusal: 2 to 5 and 28 for the names, 6, then the text.
pub fn survey_text(names: &[u8], text: &[u8]) -> Result<Survey, Refusal>
    ensures { Surveyed names.now text.now result }
{
    let n = names::check_names(names)?;
    refusing::test(Reason::Strains, strains_out(n))?;
    of_text(names, n, text)
}
