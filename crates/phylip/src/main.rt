// Reads a square matrix of PHYLIP from standard input and writes it to standard output in our form, or `refused` and the number. Where
// reading fails it writes nothing.
#![tactic(auto)]

ghost use Rattle.std.specs.Prelude.{◌≡◌, ◌+◌, ◌*◌, ◌≤◌, length};
ghost use Rattle.matrix.specs.Place.{pair_count};
ghost use Rattle.writing.specs.Text.{Wrote};
ghost use Rattle.phylip_text.specs.Form.{name_size};
ghost use Rattle.phylip_text.specs.Tests.{max_text};
ghost use Rattle.phylip.specs.Again.{again_text, strains_for};

use matrix::Matrix;
use phylip_rows::NAME;
use phylip_survey::MAX_TEXT;

// How many strains there must be room for: as many as the text's count says, none where it says more than a matrix may have.
fn strains_for(text: &[u8]) -> usize
    ensures { result ≡ strains_for text.now }
{
    let Ok(count) = phylip_lines::strain_count(text) else {
        return 0;
    };
    if count.strains > Matrix::MAX_STRAINS as u64 {
        return 0;
    }
    count.strains as usize
}

// The matrix of a text, read into two buffers of the size that its count asks for and written again, or the line of the refusal; its end.
fn rewritten(
    text: &[u8],
    n: usize,
    distances: &mut [u16],
    names: &mut [u8],
    out: &mut [u8],
) -> usize
    requires { (n ≡ strains_for text.now) × (length distances.old ≡ pair_count n) × (length names.old ≡ name_size * n) × (length out.old ≡ max_text) }
    ensures { Wrote out.old out.new 0 (again_text text.now) result }
{
    if let Err(refusal) = phylip_read::read(text, distances, names) {
        return lines::refused_line(out, 0, u32::from(refusal.reason), refusal.place);
    }
    match phylip_write::write(n as u32, distances, names, out) {
        Ok(end) => end,
        Err(refusal) => lines::refused_line(out, 0, u32::from(refusal.reason), refusal.place),
    }
}

// The same with buffers of its own.
fn again(text: &[u8], out: &mut [u8]) -> usize
    requires { length out.old ≡ max_text }
    ensures { Wrote out.old out.new 0 (again_text text.now) result }
{
    let n = strains_for(text);
    let pairs = matrix::pair_count(n as u32) as usize;
    let bytes = NAME * n;
    let mut distances: [u16; Matrix::MAX_PAIRS] = arrays::filled(0);
    let mut names: [u8; phylip_read::MAX_NAMES] = arrays::filled(0);
    rewritten(text, n, &mut distances[..pairs], &mut names[..bytes], out)
}

fn main(rt: HostRuntime) {
    let mut space: [u8; MAX_TEXT + 1] = arrays::filled(0);
    if let Ok(count) = streams::take_in(&rt, &mut space) {
        let mut out: [u8; MAX_TEXT] = arrays::filled(0);
        streams::put_out(&rt, again(&space[..count], &mut out), &out);
    }
}
