// A name found among the names of a record by its key, a small number that is the same for the same bytes. A table has for each key the first
// strain whose name has it: that strain's name is compared, and only where it is another one are all names gone through.
#![tactic(auto)]

ghost use Rattle.std.specs.Prelude.{◌≡◌, ◌≤◌, length};
ghost use Rattle.matrix.specs.Limits.{max_strains};
ghost use Rattle.records.specs.Names.{name_start};
ghost use Rattle.names.specs.Name.{keys};
ghost use Rattle.names.specs.Record.{place_of};
ghost use Rattle.name_keys.specs.Keyed.{Firsts, Keyed};

use matrix::Matrix;
use names::KEYS;

// For each key the first of `n` strains whose name has it.
pub fn first_strains(s: &[u8], from: usize, n: usize) -> [u8; KEYS]
    requires { (n ≤ max_strains) × (name_start s.now from n ≤ length s.now) }
    ensures { Firsts s.now from n result }
{
    let mut firsts: [u8; KEYS] = arrays::filled(255);
    let mut at = from;
    for i in 0..n {
        let start = at + 1;
        let end = start + s[at] as usize;
        let key = names::key_of(&s[start..end]);
        let strain = i as u8;
        if strain < firsts[key] {
            firsts[key] = strain;
        }
        at = end;
    }
    firsts
}

// The strain that has a name, `n` where none of `n` strains has it; the names begin at `starts`.
pub fn find_strain(
    s: &[u8],
    from: usize,
    n: usize,
    firsts: &[u8; KEYS],
    starts: &[usize; Matrix::MAX_STRAINS],
    name: &[u8],
) -> usize
    requires { Keyed s.now from n firsts.now starts.now }
    ensures { result ≡ place_of s.now from n name.now }
{
    let key = names::key_of(name);
    let i = usize::from(firsts[key]);
    if i < n {
        let at = starts[i];
        let start = at + 1;
        let end = start + s[at] as usize;
        if digits::same(&s[start..end], name) {
            return i;
        }
    }
    names::strain_of(s, from, n, name)
}
