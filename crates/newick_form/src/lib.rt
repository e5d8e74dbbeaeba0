// The form of a tree in text (RULES, Trees in text), judged before anything is read from it. The judge calls itself for each bracket that
// opens within another, 62 at the most, and goes along the vertices of one bracket in a loop: so their number is no matter.
#![tactic(auto)]

ghost use Rattle.std.specs.Prelude.{◌≡◌, ◌≤◌, eqb, length};
ghost use Rattle.newick_text.specs.Count.{occurs};
ghost use Rattle.newick_form.specs.Form.{FormRead, TextRead};

use newick_words::MAX_TEXT;

// The most brackets that may be open at once.
pub const MAX_OPEN: usize = 62;

// Where the vertex at a place ends, where `room` more brackets may open; none where no vertex stands there.
fn form(text: &[u8], at: usize, room: usize) -> Option<usize>
    requires { at ≤ length text.now }
    ensures { FormRead text.now at room result }
{
    if digits::byte_at(text, at) != b'(' {
        let end = newick_words::name_end(text, at);
        if end == at {
            return None;
        }
        return Some(end);
    }
    if room == 0 {
        return None;
    }
    let mut next = at + 1;
    // The text says child by child whether one more comes.
    loop {
        let end = form(text, next, room - 1)?;
        let edge = newick_words::edge_end(text, end);
        if edge == end {
            return None;
        }
        let byte = digits::byte_at(text, edge);
        if byte == b')' {
            return Some(edge + 1);
        }
        if byte != b',' {
            return None;
        }
        next = edge + 1;
    }
}

// Whether a text is of the form: not too long, a bracketed root, a semicolon, nothing behind it.
pub fn is_text(text: &[u8]) -> bool
    ensures { TextRead text.now result }
{
    if text.len() > MAX_TEXT {
        return false;
    }
    if digits::byte_at(text, 0) != b'(' {
        return false;
    }
    let Some(end) = form(text, 0, MAX_OPEN) else {
        return false;
    };
    if digits::byte_at(text, end) != b';' {
        return false;
    }
    end + 1 == text.len()
}

// Whether a byte stands so many times in a text; the first one too many tells.
pub fn count_is(text: &[u8], byte: u8, count: usize) -> bool
    ensures { result ≡ eqb (occurs byte text.now) count }
{
    let mut left = count;
    for next in text {
        if *next == byte {
            if left == 0 {
                return false;
            }
            left -= 1;
        }
    }
    left == 0
}
