// The text of a tree, written from a table of parents: the writer goes from a vertex to its children, in rising number. Nothing is
// tested here.
#![tactic(auto)]

ghost use Rattle.std.specs.Prelude.{◌≡◌, ◌∷◌, ◌++◌, ◌+◌, ◌≤◌, ◌<◌, length, get_or, take, drop};
ghost use Rattle.writing.specs.Text.{Wrote};
ghost use Rattle.newick_text.specs.Length.{thousandths, length_text};
ghost use Rattle.newick_text.specs.Tree.{size_of, row_size, text_then, text_of};
ghost use Rattle.newick_put.specs.Put.{Words, tree_at, children_at, widest_length, Laid};

// Thousandths with three places.
fn put_thousandths(text: &mut [u8], at: usize, n: u64) -> usize
    requires { at + 24 ≤ length text.old }
    ensures { Wrote text.old text.new at (thousandths n) result }
{
    let point = writing::put_number(text, at, n / 1000);
    let places = [
        b'.',
        b'0' + (n / 100 % 10) as u8,
        b'0' + (n / 10 % 10) as u8,
        b'0' + (n % 10) as u8,
    ];
    writing::put_word(text, point, &places)
}

// A length, with a minus where it is negative.
fn put_length(text: &mut [u8], at: usize, m: i64) -> usize
    requires { at + widest_length ≤ length text.old }
    ensures { Wrote text.old text.new at (length_text m) result }
{
    let size = arithmetic::magnitude(m);
    if m >= 0 {
        return put_thousandths(text, at, size);
    }
    let next = writing::put(text, at, b'-');
    put_thousandths(text, next, size)
}

// A colon and a length.
fn put_edge(text: &mut [u8], at: usize, m: i64) -> usize
    requires { at + 1 + widest_length ≤ length text.old }
    ensures { Wrote text.old text.new at (58 ∷ length_text m) result }
{
    let next = writing::put(text, at, b':');
    put_length(text, next, m)
}

// The name that starts with its length byte at a place of the names.
pub fn put_name(names: &[u8], start: usize, text: &mut [u8], at: usize) -> usize
    requires start_in_bounds { start + 1 + get_or names.now start 0 ≤ length names.now }
    requires start_in_bounds_2 { at + get_or names.now start 0 ≤ length text.old }
    ensures { Wrote text.old text.new at (take (get_or names.now start 0) (drop (start + 1) names.now)) result }
{
    let size = names[start] as usize;
    let from = start + 1;
    let to = from + size;
    writing::put_word(text, at, &names[from..to])
}

// The text of v's tree from `at` on, children in rising number; returns where it ends. The vertices below n are the strains.
fn put_vertex(
    parents: &[u8],
    lengths: &[i64],
    names: &[u8],
    starts: &[usize],
    n: usize,
    v: usize,
    text: &mut [u8],
    at: usize,
) -> usize
    requires v_in_bounds { (v ≤ length parents.now) × (length parents.now ≤ length lengths.now) × Words names.now starts.now n }
    requires widest_length_in_bounds { at + size_of (tree_at parents.now lengths.now names.now starts.now n v) + widest_length ≤ length text.old }
    ensures { Laid (text_then (tree_at parents.now lengths.now names.now starts.now n v)) (size_of (tree_at parents.now lengths.now names.now starts.now n v)) text.old text.new at result }
{
    if v < n {
        return put_name(names, starts[v], text, at);
    }
    let mut lead = b'(';
    let mut end = at;
    for child in 0..v {
        if parents[child] as usize == v {
            text[end] = lead;
            let below = put_vertex(parents, lengths, names, starts, n, child, text, end + 1);
            end = put_edge(text, below, lengths[child]);
            lead = b',';
        }
    }
    text[end] = b')';
    end + 1
}

// The text of the tree, with its semicolon, at the front of a buffer; returns its length. The root is the last vertex.
pub fn put_tree(
    parents: &[u8],
    lengths: &[i64],
    names: &[u8],
    starts: &[usize],
    n: usize,
    text: &mut [u8],
) -> usize
    requires n_in_bounds { (n ≤ length parents.now) × (length parents.now ≤ length lengths.now) × Words names.now starts.now n }
    requires widest_length_in_bounds { size_of (tree_at parents.now lengths.now names.now starts.now n (length parents.now)) + widest_length ≤ length text.old }
    ensures { Wrote text.old text.new 0 (text_of (children_at parents.now lengths.now names.now starts.now n (length parents.now))) result }
{
    let root = parents.len();
    let end = put_vertex(parents, lengths, names, starts, n, root, text, 0);
    writing::put(text, end, b';')
}
