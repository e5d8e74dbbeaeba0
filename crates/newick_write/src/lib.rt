// Trees written as Newick text without a fit: names, a table of parents and thousandths are judged first, the front of the lent buffer is
// filled after. Nothing behind the text changes, and a refusal changes nothing.
#![tactic(auto)]

ghost use Rattle.std.specs.Prelude.{◌≡◌, length};
ghost use Rattle.writing.specs.Text.{Wrote};
ghost use Rattle.newick_write.specs.Answers.{tree_text, strains_cut, Tellable, Judged, WriteAnswer, NumberAnswer};

use matrix::Matrix;
use newick_words::{MAX_TEXT, THOUSAND};
use records::Layout;
use verdict::{Reason, Refusal};

// The text of a tree whose names stand in s from a place on, at the front of a buffer; returns its length.
pub fn put_named(
    s: &[u8],
    from: usize,
    n: usize,
    parents: &[u8],
    lengths: &[i64],
    text: &mut [u8],
) -> usize
    requires { Tellable s.now from n parents.now lengths.now text.old }
    ensures { Wrote text.old text.new 0 (tree_text s.now from n parents.now lengths.now) result }
{
    let starts = names::name_starts(s, from, n);
    newick_put::put_tree(parents, lengths, s, &starts, n, text)
}

// A count of strains in 32 bits: one more than the most for every larger one, which the tests of a tree refuse alike.
fn strains(count: usize) -> u32
    ensures { result ≡ strains_cut count }
{
    if count > Matrix::MAX_STRAINS {
        return Matrix::MAX_STRAINS as u32 + 1;
    }
    count as u32
}

// How many names there are, or the refusal: 2 to 5, 28, 6, 8 to 11, 13, 15, 16, the first that applies to names, a tree and thousandths,
// and to a buffer of so many bytes.
fn check_matter(
    names: &[u8],
    parents: &[u8],
    thousandths: &[i64],
    room: usize,
) -> Result<usize, Refusal>
    ensures { Judged names.now parents.now thousandths.now room result }
{
    let count = names::check_names(names)?;
    tree::check_tree(strains(count), parents)?;
    lengths::check_lengths(parents.len(), THOUSAND, thousandths)?;
    refusing::test(Reason::Buffer, room != MAX_TEXT)?;
    Ok(count)
}

// The text of a tree, at the front of a buffer of exactly 65,536 bytes: how many bytes it has, or the refusal.
pub fn write(
    names: &[u8],
    parents: &[u8],
    thousandths: &[i64],
    text: &mut [u8],
) -> Result<usize, Refusal>
    ensures { WriteAnswer names.now parents.now thousandths.now text.old text.new result }
{
    let n = check_matter(names, parents, thousandths, text.len())?;
    Ok(put_named(names, Layout::HEAD, n, parents, thousandths, text))
}

// The same as a number, and where it is 0 the length of the text in `length`; otherwise that is left as it was too. The crate newick_write_c
// exports it to C.
pub fn newick_write(
    names: &[u8],
    parents: &[u8],
    thousandths: &[i64],
    text: &mut [u8],
    length: &mut usize,
) -> u32
    ensures { NumberAnswer names.now parents.now thousandths.now text.old text.new length.old length.new result }
{
    match write(names, parents, thousandths, text) {
        Ok(end) => {
            *length = end;
            0
        }
        Err(refusal) => u32::from(refusal.reason),
    }
}
