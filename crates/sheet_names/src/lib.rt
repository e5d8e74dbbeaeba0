// The names of a sheet with names: whether a sheet is one, and where its names begin, once they are of the form and no two alike.
#![tactic(auto)]

ghost use Rattle.std.specs.Prelude.{◌≡◌};
ghost use Rattle.sheet_names.specs.Labels.{has_names, Labelled};

use records::Layout;
use verdict::{Reason, Refusal};

// Whether a sheet is one with names: the form of four records passes.
pub fn has_names(s: &[u8]) -> bool
    ensures { result ≡ has_names s.now }
{
    records::records(s, 4).is_ok()
}

// Where the names begin, or the refusal: 1 to 5 over four records, then 28.
pub fn labelled(s: &[u8]) -> Result<usize, Refusal>
    ensures { Labelled s.now result }
{
    let laid = records::records(s, 4)?;
    let from = laid.starts[3] + Layout::HEAD;
    let n = endian::u16_at(s, Layout::HEAD) as usize;
    refusing::test(Reason::Newick, names::names_out(s, from, n))?;
    Ok(from)
}
