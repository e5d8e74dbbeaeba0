// The square matrices of PHYLIP, written: a matrix and names are judged first, the front of the lent buffer is filled after. Nothing
// behind the text changes, and a refusal changes nothing.
#![tactic(auto)]

ghost use Rattle.std.specs.Prelude.{◌≡◌, length};
ghost use Rattle.verdict.specs.Answer.{answer_of};
ghost use Rattle.phylip_text.specs.Tests.{name_byte_out, write_tests};
ghost use Rattle.phylip_write.specs.Answers.{WriteAnswer, NumberAnswer};

use phylip_rows::NAME;
use phylip_survey::MAX_TEXT;
use verdict::{Reason, Refusal, Verdict};

// 17: whether some byte is in no name.
fn name_byte_out(names: &[u8]) -> bool
    ensures { result ≡ name_byte_out names.now }
{
    for byte in names {
        if phylip_rows::name_out(*byte) {
            return true;
        }
    }
    false
}

// 4, 6, 7, 17, 15, the first that applies to a matrix and names, and to a buffer of so many bytes.
fn check_matter(n: u32, distances: &[u16], names: &[u8], room: usize) -> Verdict
    ensures { answer_of result ≡ write_tests n distances.now names.now room }
{
    refusing::test(
        Reason::WrongCounts,
        names.len() as u64 != NAME as u64 * n as u64,
    )?;
    matrix::check_matrix(n, distances)?;
    refusing::test(Reason::Text, name_byte_out(names))?;
    refusing::test(Reason::Buffer, room != MAX_TEXT)
}

// The text of a matrix of n strains and their names, at the front of a buffer of exactly 65,536 bytes: how many bytes it has, or the refusal.
pub fn write(n: u32, distances: &[u16], names: &[u8], text: &mut [u8]) -> Result<usize, Refusal>
    ensures { WriteAnswer n distances.now names.now text.old text.new result }
{
    check_matter(n, distances, names, text.len())?;
    Ok(phylip_put::put_text(text, n as usize, distances, names))
}

// The same as a number, and where it is 0 the length of the text in `length`; otherwise that is left as it was too. The crate phylip_write_c
// exports it to C.
pub fn phylip_write(
    n: u32,
    distances: &[u16],
    names: &[u8],
    text: &mut [u8],
    length: &mut usize,
) -> u32
    ensures { NumberAnswer n distances.now names.now text.old text.new length.old length.new result }
{
    match write(n, distances, names, text) {
        Ok(end) => {
            *length = end;
            0
        }
        Err(refusal) => u32::from(refusal.reason),
    }
}
