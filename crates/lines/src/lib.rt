// Lines of a word and numbers, written into a lent buffer.
#![tactic(auto)]

ghost use Rattle.std.specs.Prelude.{[], ◌∷◌, ◌++◌, ◌+◌, ◌*◌, ◌≤◌, pos, length};
ghost use Rattle.writing.specs.Text.{Wrote};
ghost use Rattle.lines.specs.Lines.{fields, line, mean_line, place_fields, refused_line};
ghost use Rattle.lines.specs.Page.{widest};

use mean::Mean;
use verdict::Place;

// Numbers, a space before each.
fn fields(text: &mut [u8], at: usize, values: &[i64]) -> usize
    requires room { at + 22 * length values.now ≤ length text.old }
    ensures { Wrote text.old text.new at (fields values.now) result }
{
    let mut next = at;
    for value in values {
        let number = writing::put(text, next, b' ');
        next = writing::put_signed(text, number, *value);
    }
    next
}

// A line: a word and numbers.
pub fn line(text: &mut [u8], at: usize, word: &[u8], values: &[i64]) -> usize
    requires room { at + length word.now + 22 * length values.now + 1 ≤ length text.old }
    ensures { Wrote text.old text.new at (line word.now values.now) result }
{
    let numbers = writing::put_word(text, at, word);
    let end = fields(text, numbers, values);
    writing::put(text, end, b'\n')
}

// The line of the mean square: F and what it is over, or none.
pub fn mean_line(text: &mut [u8], at: usize, f: i64, mean: Mean) -> usize
    requires room { at + widest ≤ length text.old }
    ensures { Wrote text.old text.new at (mean_line f mean) result }
{
    match mean {
        None => line(text, at, b"mean none", &[]),
        Some(divisor) => {
            let values = [f, divisor];
            line(text, at, b"mean", &values)
        }
    }
}

// A word and a number, a space before it.
fn named(text: &mut [u8], at: usize, word: &[u8], n: u64) -> usize
    requires room { at + length word.now + 22 ≤ length text.old }
    ensures { Wrote text.old text.new at (word.now ++ fields (pos n ∷ [])) result }
{
    let space = writing::put_word(text, at, word);
    let number = writing::put(text, space, b' ');
    writing::put_number(text, number, n)
}

// The place of a refusal: a space and byte, vertex or edge, its number, and the sum where the edge has one; nothing
// where there is no place.
fn place_fields(text: &mut [u8], at: usize, place: Place) -> usize
    requires room { at + 51 ≤ length text.old }
    ensures { Wrote text.old text.new at (place_fields place) result }
{
    match place {
        Place::Nowhere => at,
        Place::Byte(b) => named(text, at, b" byte", b as u64),
        Place::Vertex(v) => named(text, at, b" vertex", v as u64),
        Place::Edge(e) => named(text, at, b" edge", e as u64),
        Place::EdgeSum(e, z) => {
            let edge = named(text, at, b" edge", e as u64);
            let sum = writing::put(text, edge, b' ');
            writing::put_signed(text, sum, z)
        }
    }
}

// refused, the number, and the place.
pub fn refused_line(text: &mut [u8], at: usize, number: u32, place: Place) -> usize
    requires room { at + widest ≤ length text.old }
    ensures { Wrote text.old text.new at (refused_line number place) result }
{
    let behind = named(text, at, b"refused", number as u64);
    let last = place_fields(text, behind, place);
    writing::put(text, last, b'\n')
}
