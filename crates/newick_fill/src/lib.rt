// The tables of a text that is known to be of the form: an inner vertex gets its number as its bracket closes, and the entries of its
// children are set on the way back. A call for each vertex: so a text comes here only once its leaves are known to be few.
#![tactic(auto)]

ghost use Rattle.std.specs.Prelude.{◌≡◌, ◌+◌, ◌≤◌, length, set};
ghost use Rattle.records.specs.Form.{head_size};
ghost use Rattle.names.specs.Record.{place_of};
ghost use Rattle.name_keys.specs.Keyed.{Keyed};
ghost use Rattle.newick_fill.specs.Fill.{byte_of, ahead, Vertex, Children, Took, TookAll};

use matrix::Matrix;
use names::KEYS;
use records::Layout;

// What is known behind a vertex: where it ends, its number, and the next number for a bracket.
#[derive(Clone, Copy)]
pub struct Step {
    pub end: usize,
    pub number: usize,
    pub next: usize,
}

// A number as a byte; those that no byte holds are numbers of no tree that is allowed.
fn byte_of(number: usize) -> u8
    ensures { result ≡ byte_of number }
{
    if number < 256 {
        return number as u8;
    }
    255
}

// The parent of a vertex, where the table has room for it; its numerator, likewise; both.
fn put_parent(parents: &mut [u8], number: usize, parent: usize)
    ensures { parents.new ≡ set parents.old number (byte_of parent) }
{
    if number < parents.len() {
        parents[number] = byte_of(parent);
    }
}

fn put_numerator(numerators: &mut [i64], number: usize, numerator: i64)
    ensures { numerators.new ≡ set numerators.old number numerator }
{
    if number < numerators.len() {
        numerators[number] = numerator;
    }
}

fn put(parents: &mut [u8], numerators: &mut [i64], number: usize, parent: usize, numerator: i64)
    ensures parents_after { parents.new ≡ set parents.old number (byte_of parent) }
    ensures numerators_after { numerators.new ≡ set numerators.old number numerator }
{
    put_parent(parents, number, parent);
    put_numerator(numerators, number, numerator);
}

// The vertex at a place, where `next` is the next number for a bracket; the tables of the `n` names find the strain of one.
#[cycle(children_vertex)]
fn vertex(
    text: &[u8],
    at: usize,
    next: usize,
    names: &[u8],
    n: usize,
    firsts: &[u8; KEYS],
    starts: &[usize; Matrix::MAX_STRAINS],
    parents: &mut [u8],
    numerators: &mut [i64],
) -> Step
    requires at_in_bounds { (at ≤ length text.now) × (next ≤ at + ahead) × Keyed names.now head_size n firsts.now starts.now }
    requires vertex { Vertex text.now at }
    ensures { (v : Vertex text.now at) → Took (place_of names.now head_size n) text.now at next parents.old parents.new numerators.old numerators.new result v }
{
    if digits::byte_at(text, at) == b'(' {
        return children(
            text,
            at + 1,
            next,
            names,
            n,
            firsts,
            starts,
            parents,
            numerators,
        );
    }
    let end = newick_words::name_end(text, at);
    let name = &text[at..end];
    Step {
        end,
        number: name_keys::find_strain(names, Layout::HEAD, n, firsts, starts, name),
        next,
    }
}

// The children of a bracket from a place on, up to and with the bracket that closes.
#[cycle(children_vertex)]
pub fn children(
    text: &[u8],
    at: usize,
    next: usize,
    names: &[u8],
    n: usize,
    firsts: &[u8; KEYS],
    starts: &[usize; Matrix::MAX_STRAINS],
    parents: &mut [u8],
    numerators: &mut [i64],
) -> Step
    requires at_in_bounds { (at ≤ length text.now) × (next ≤ at + ahead) × Keyed names.now head_size n firsts.now starts.now }
    requires children { Children text.now at }
    ensures { (v : Children text.now at) → TookAll (place_of names.now head_size n) text.now at next parents.old parents.new numerators.old numerators.new result v }
{
    let child = vertex(
        text, at, next, names, n, firsts, starts, parents, numerators,
    );
    let length = newick_words::length_at(text, child.end + 1);
    let numerator = length.thousandths;
    let end = length.end;
    if digits::byte_at(text, end) == b')' {
        put(parents, numerators, child.number, child.next, numerator);
        return Step {
            end: end + 1,
            number: child.next,
            next: child.next + 1,
        };
    }
    let others = children(
        text,
        end + 1,
        child.next,
        names,
        n,
        firsts,
        starts,
        parents,
        numerators,
    );
    put(parents, numerators, child.number, others.number, numerator);
    others
}
