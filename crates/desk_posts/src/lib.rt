// The line of a posting: N and the distances, which go into the matrix's order, then the parents.
#![tactic(auto)]

ghost use Rattle.std.specs.Prelude.{◌≡◌, ◌≤◌, length};
ghost use Rattle.desk_text.specs.Meaning.{max_line, max_words, no_more, post_in};
ghost use Rattle.desk_text.specs.Fields.{cut_word};
ghost use Rattle.desk_words.specs.Reads.{words_at};
ghost use Rattle.desk_posts.specs.Posts.{FrontRead, BackRead, PostRead};

// The most bytes that a line may have without its end, and the most words that it can then have.
pub const MAX_LINE: usize = 16384;

pub const MAX_WORDS: usize = 8192;

// What a number of 32 bits is cut at.
const WORD: u64 = 4294967295;

// A number as one of 32 bits.
pub fn word(number: u64) -> u32
    ensures { result ≡ cut_word number }
{
    desk_words::field(number, WORD, WORD) as u32
}

// Whether no word is left from a place on.
pub fn over(line: &[u8], at: usize) -> bool
    requires { at ≤ length line.now }
    ensures { result ≡ no_more (words_at line.now at) }
{
    let next = desk_words::word_at(line, at);
    next.start == next.end
}

// "N distances": N, how many distances, and where they end.
#[derive(Clone, Copy)]
struct Front {
    n: u32,
    pairs: usize,
    end: usize,
}

// N and the distances from a place on, where N is there; the distances at the front of their table, in the matrix's order.
fn distances_of(line: &[u8], at: usize, numbers: &mut [u16], distances: &mut [u16]) -> Option<Front>
    requires { (at ≤ length line.now) × (length line.now ≤ max_line) × (max_words ≤ length numbers.old) × (max_words ≤ length distances.old) }
    ensures { FrontRead line.now at distances.new result }
{
    let n = desk_words::number_at(line, at).ok()?;
    let strains = word(n.value);
    let taken = desk_words::numbers(line, n.end, 65535, 65534, numbers);
    desk_tables::lay_distances(strains, &numbers[..taken.count], distances);
    Some(Front {
        n: strains,
        pairs: taken.count,
        end: taken.end,
    })
}

// How many parents there are from a place on, behind a slash, where that is all that is left of the line; the parents at the front of
// their table.
fn parents_of(line: &[u8], at: usize, numbers: &mut [u16], parents: &mut [u8]) -> Option<usize>
    requires { (at ≤ length line.now) × (length line.now ≤ max_line) × (max_words ≤ length numbers.old) × (max_words ≤ length parents.old) }
    ensures { BackRead line.now at parents.new result }
{
    let slash = desk_words::word_at(line, at);
    if !digits::same(&line[slash.start..slash.end], b"/") {
        return None;
    }
    let taken = desk_words::numbers(line, slash.end, 255, 255, numbers);
    if !over(line, taken.end) {
        return None;
    }
    desk_tables::lay_parents(&numbers[..taken.count], parents);
    Some(taken.count)
}

// A posting that a line has: N, and how many distances and parents stand at the front of their tables.
#[derive(Clone, Copy)]
pub struct Post {
    pub n: u32,
    pub pairs: usize,
    pub edges: usize,
}

// The posting that stands behind "post", from a place on; none where the line is not of the form.
pub fn post_line(
    line: &[u8],
    at: usize,
    numbers: &mut [u16],
    distances: &mut [u16],
    parents: &mut [u8],
) -> Option<Post>
    requires { (at ≤ length line.now) × (length line.now ≤ max_line) × (max_words ≤ length numbers.old) × (max_words ≤ length distances.old) × (max_words ≤ length parents.old) }
    ensures { PostRead (post_in (words_at line.now at)) distances.new parents.new result }
{
    let front = distances_of(line, at, numbers, distances)?;
    let edges = parents_of(line, front.end, numbers, parents)?;
    Some(Post {
        n: front.n,
        pairs: front.pairs,
        edges,
    })
}
