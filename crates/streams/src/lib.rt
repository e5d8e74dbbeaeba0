// Standard input and standard output for the programs, and what is said where they fail. A program ends with status 0
// whatever it came to: where reading or writing fails it says so on standard error, and what it wrote to standard output
// is then no whole answer.
#![tactic(auto)]

ghost use Rattle.std.specs.Prelude.{◌≡◌, true, ◌+◌, ◌^◌, ◌≤◌, ◌<◌, length, take};
ghost use Rattle.exact.specs.Table.{table};
ghost use Rattle.records.specs.Form.{max_sheet};
ghost use Rattle.streams.specs.Reads.{IsPrefixLen, number_of, read_of, came_to, ReadOnce, ReadIn};

use records::Layout;
use std::io;
use std::io::Read;

// Zeros, one byte more than a sheet may have: whatever follows, a longer one is refused for its length.
pub fn room() -> [u8; Layout::MAX_SHEET + 1]
    ensures { result ≡ table (max_sheet + 1) (λ _. 0) }
{
    arrays::filled(0)
}

// How many bytes stand at the front of a buffer after a read behind so many, by what the read gave and what was left of
// the buffer; none where it failed. At the end of the input they are as many as before.
fn after_read(count: usize, got: io::Result<usize>, left: &[u8]) -> Option<usize>
    requires { count + length left.now < 2 ^ 64 }
    ensures { result ≡ read_of count (number_of got) (length left.now) }
{
    match got {
        Err(_) => None,
        Ok(n) => Some(count + n.min(left.len())),
    }
}

// Says on standard error what went wrong, where something did; whether nothing did.
fn say_unless(rt: &impl Eprint, well: bool, wrong: &str) -> bool
    ensures { result ≡ well }
{
    if !well {
        let _ = rt.eprintln(wrong);
    }
    well
}

// Reads once from standard input into what is left of a buffer behind so many bytes; how many then stand at its front,
// or none where the read failed, which it says.
pub fn take_more(rt: &(impl Input + Eprint), space: &mut [u8], count: usize) -> Option<usize>
    requires { count < length space.old }
    ensures read_once { ReadOnce (length space.old) count result }
    ensures space_unchanged { take count space.new ≡ take count space.old }
{
    let got = rt.reader().read(&mut space[count..]);
    let next = after_read(count, got, &space[count..]);
    say_unless(rt, next.is_some(), "standard input could not be read");
    next
}

// Fills a buffer from standard input until it is full or the input ends; how many bytes stand at its front. Where a read
// failed, which it says, the error is how many had come before.
pub fn take_in(rt: &(impl Input + Eprint), space: &mut [u8]) -> Result<usize, usize>
    ensures prefix_len { IsPrefixLen (came_to result) space.new }
    ensures read_in { ReadIn (length space.old) 0 result }
{
    let mut count = 0;
    // What a read gives is not known before it came.
    while count < space.len() {
        let Some(next) = take_more(rt, space, count) else {
            return Err(count);
        };
        if next == count {
            return Ok(count);
        }
        count = next;
    }
    Ok(count)
}

// Writes so many bytes from the front of a text to standard output, or says that it could not; whether all of them
// went out, as they did where there are none.
pub fn put_out(rt: &(impl Print + Eprint), count: usize, text: &[u8]) -> bool
    requires { count ≤ length text.now }
    ensures { count ≡ 0 → result ≡ true }
{
    say_unless(
        rt,
        count == 0 || rt.write_all(&text[..count]).is_ok(),
        "standard output could not be written",
    )
}
