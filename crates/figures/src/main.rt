// Reads sheets from standard input, each led by its length in three bytes, little-endian, and by a byte that is
// 0 for a sheet of three records, 2 for one where no length may be negative, and any other for one without lengths.
// Prints one line for each: its report, or the direct fit of its tree, with the line ends made spaces, or `refused`,
// the number and the place.
#![tactic(auto)]

ghost use Rattle.std.specs.Prelude.{◌≡◌, ◌+◌, ◌≤◌, ◌<◌, length};

// The most bytes that are read, of all the sheets together.
const SHEETS: usize = 524_288;

// A line end becomes a space.
fn blank(text: &mut [u8], k: usize)
    requires { k < length text.old }
    ensures { length text.new ≡ length text.old }
{
    if text[k] == b'\n' {
        text[k] = b' ';
    }
}

// Every line end of a text but the last becomes a space.
fn in_one_line(text: &mut [u8], end: usize)
    requires { end ≤ length text.old }
    ensures { length text.new ≡ length text.old }
{
    for k in 1..end {
        blank(text, k - 1);
    }
}

// The print of a sheet, or of one without lengths.
fn text_of(kind: u8, sheet: &[u8], text: &mut [u8]) -> usize
    ensures { (result ≤ length text.new) × (length text.new ≡ length text.old) }
{
    match kind {
        0 => pages::sheet_print(sheet, text),
        2 => pages::sheet_print0(sheet, text),
        _ => pages::unfitted_print(sheet, text),
    }
}

// Writes the print of a sheet out, in one line; whether it went out.
fn print_line(rt: &(impl Print + Eprint), kind: u8, sheet: &[u8]) -> bool {
    let mut text: [u8; pages::PAGE] = arrays::filled(0);
    let written = text_of(kind, sheet, &mut text);
    in_one_line(&mut text, written);
    streams::put_out(rt, written, &text)
}

// A byte as a wider number.
fn wide(x: u8) -> usize
    ensures { result < 256 }
{
    x as usize
}

// The length that stands at a place, at most what is left behind it.
fn length_at(s: &[u8], at: usize) -> usize
    requires { at + 4 ≤ length s.now }
    ensures { at + 4 + result ≤ length s.now }
{
    let size = wide(s[at]) + wide(s[at + 1]) * 256 + wide(s[at + 2]) * 65536;
    let left = s.len() - at - 4;
    if size < left {
        return size;
    }
    left
}

// A line for each sheet, up to the first that cannot be written.
fn print_all(rt: &(impl Print + Eprint), s: &[u8]) {
    let mut at = 0;
    // A sheet's length stands before it, and says where the next begins.
    while at + 4 <= s.len() {
        let size = length_at(s, at);
        let start = at + 4;
        let end = start + size;
        if !print_line(rt, s[at + 3], &s[start..end]) {
            return;
        }
        at = end;
    }
}

fn main(rt: HostRuntime) {
    let mut space: [u8; SHEETS] = arrays::filled(0);
    if let Ok(count) = streams::take_in(&rt, &mut space) {
        print_all(&rt, &space[..count]);
    }
}
