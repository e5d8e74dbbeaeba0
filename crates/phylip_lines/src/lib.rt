// The lines of a square matrix in a text: blanks, where a line ends and the next begins, and the count of the first line.
#![tactic(auto)]

ghost use Rattle.std.specs.Prelude.{◌≡◌, not, ◌&&◌, ◌+◌, ◌≤◌, eqb, length, drop};
ghost use Rattle.phylip_text.specs.Form.{line_end_size};
ghost use Rattle.phylip_lines.specs.Lines.{EndRead, CountRead};

// How many bytes the line end has that two bytes begin; 0 where they begin none.
fn line_end_size(byte: u8, next: u8) -> usize
    ensures { result ≡ line_end_size byte next }
{
    if byte == 10 {
        return 1;
    }
    if byte != 13 {
        return 0;
    }
    if next == 10 {
        return 2;
    }
    0
}

// Whether neither the text's end nor a line end of that size stands at a place.
fn unended(at: usize, length: usize, size: usize) -> bool
    ensures { result ≡ (not (eqb at length) && eqb size 0) }
{
    if at == length {
        return false;
    }
    size == 0
}

// Where the line behind the one at a place begins, whose blanks and end are passed; the error, where nothing ends it, is the place
// behind the blanks, where its end should stand.
pub fn line_end(text: &[u8], at: usize) -> Result<usize, usize>
    requires { at ≤ length text.now }
    ensures { EndRead text.now at result }
{
    let end = digits::blanks_end(text, at);
    let size = line_end_size(digits::byte_at(text, end), digits::byte_at(text, end + 1));
    let next = end + size;
    if unended(end, text.len(), size) {
        return Err(next);
    }
    Ok(next)
}

// The count of a text: what it is, cut, and where it ends.
#[derive(Clone, Copy)]
pub struct Count {
    pub strains: u64,
    pub end: usize,
}

// The count at the front of a text, behind blanks; the error, where no digit stands there, is the place behind the blanks.
pub fn strain_count(text: &[u8]) -> Result<Count, usize>
    ensures { CountRead text.now result }
{
    let start = digits::blanks_end(text, 0);
    let end = digits::digits_end(text, start);
    if start == end {
        return Err(end);
    }
    Ok(Count {
        strains: digits::number(text, 0, start, end),
        end,
    })
}
