// The names of strains: what a name is, the names of a names record, and which strain has a name. Names stand one behind
// the other, each with a length byte before it; `from` is where the first one begins.
#![tactic(auto)]

ghost use Rattle.std.specs.Prelude.{◌≡◌, false, ◌+◌, ◌<◌, ◌≤◌, length, drop};
ghost use Rattle.exact.specs.Table.{table, padded};
ghost use Rattle.matrix.specs.Limits.{max_strains};
ghost use Rattle.verdict.specs.Table.{some};
ghost use Rattle.digits.specs.Digits.{run, same};
ghost use Rattle.records.specs.Names.{name_start};
ghost use Rattle.names.specs.Name.{is_letter, is_name_byte, is_name, keys, key_from};
ghost use Rattle.names.specs.Record.{name_of, name_out, names_out, place_of, NamesAnswer};

use matrix::Matrix;
use records::Layout;
use verdict::{Place, Reason, Refusal};

// The keys that names may have.
pub const KEYS: usize = 256;

// Whether a byte is a letter.
fn is_letter(byte: u8) -> bool
    ensures { result ≡ is_letter byte }
{
    if byte < 65 {
        return false;
    }
    if byte <= 90 {
        return true;
    }
    if byte < 97 {
        return false;
    }
    byte <= 122
}

// Whether a byte may stand in a name: a digit, a letter, an underscore.
pub fn is_name_byte(byte: u8) -> bool
    ensures { result ≡ is_name_byte byte }
{
    if digits::is_digit(byte) {
        return true;
    }
    if is_letter(byte) {
        return true;
    }
    byte == b'_'
}

// Where the name bytes at a place end.
pub fn name_end(text: &[u8], at: usize) -> usize
    requires { at ≤ length text.now }
    ensures { (result ≡ at + run is_name_byte (drop at text.now)) × (result ≤ length text.now) }
{
    for end in at..text.len() {
        if !is_name_byte(text[end]) {
            return end;
        }
    }
    text.len()
}

// Whether bytes are a name.
pub fn is_name(bytes: &[u8]) -> bool
    ensures { result ≡ is_name bytes.now }
{
    if bytes.len() < 1 {
        return false;
    }
    if bytes.len() > Layout::MAX_NAME {
        return false;
    }
    name_end(bytes, 0) == bytes.len()
}

// The strain that has a name, `n` where none of `n` strains has it.
pub fn strain_of(s: &[u8], from: usize, n: usize, name: &[u8]) -> usize
    requires { name_start s.now from n ≤ length s.now }
    ensures { result ≡ place_of s.now from n name.now }
{
    let mut at = from;
    for i in 0..n {
        let size = s[at] as usize;
        let start = at + 1;
        at = start + size;
        if size == name.len() {
            if digits::same(&s[start..at], name) {
                return i;
            }
        }
    }
    n
}

// A number below 256 for bytes, the same for the same bytes.
pub fn key_of(bytes: &[u8]) -> usize
    ensures { (result ≡ key_from 0 bytes.now) × (result < keys) }
{
    let mut key = 0;
    for byte in bytes {
        key = (key * 31 + *byte as usize) % KEYS;
    }
    key
}

// Whether name i, which begins at `at`, is not of the form or is one of those before it; none of them is it unless its key is known.
fn name_out(s: &[u8], from: usize, i: usize, at: usize, known: bool) -> bool
    requires at_value { (at ≡ name_start s.now from i) × (name_start s.now from (i + 1) ≤ length s.now) }
    requires i_value { known ≡ false → some i (λ j. same (name_of s.now from j) (name_of s.now from i)) ≡ false }
    ensures { result ≡ name_out s.now from i }
{
    let start = at + 1;
    let end = start + s[at] as usize;
    if !is_name(&s[start..end]) {
        return true;
    }
    if !known {
        return false;
    }
    strain_of(s, from, i, &s[start..end]) < i
}

// 28: whether one of `n` names is not of the form or repeated. A name is looked for among those before it only where one of them has its key.
pub fn names_out(s: &[u8], from: usize, n: usize) -> bool
    requires { name_start s.now from n ≤ length s.now }
    ensures { result ≡ names_out s.now from n }
{
    let mut known: [u8; KEYS] = arrays::filled(0);
    let mut at = from;
    for i in 0..n {
        let start = at + 1;
        let end = start + s[at] as usize;
        let key = key_of(&s[start..end]);
        if name_out(s, from, i, at, known[key] == 1) {
            return true;
        }
        known[key] = 1;
        at = end;
    }
    false
}

// Where each of `n` names begins, then zeros.
pub fn name_starts(s: &[u8], from: usize, n: usize) -> [usize; Matrix::MAX_STRAINS]
    requires { (n ≤ max_strains) × (name_start s.now from n ≤ length s.now) }
    ensures { result ≡ padded 0 max_strains n (name_start s.now from) }
{
    let mut starts: [usize; Matrix::MAX_STRAINS] = arrays::filled(0);
    let mut at = from;
    for i in 0..n {
        starts[i] = at;
        at = at + 1 + s[at] as usize;
    }
    starts
}

// How many names a names record has that is lent by itself, or its refusal: 2, 3, 4, 5, 28.
pub fn check_names(s: &[u8]) -> Result<usize, Refusal>
    ensures { NamesAnswer s.now result }
{
    records::one_record(s, 0, Layout::NAMES)?;
    let names = records::names_at(s, 0);
    if names.end < s.len() {
        return Err(Refusal {
            reason: Reason::BytesLeft,
            place: Place::Byte(names.end),
        });
    }
    if names_out(s, Layout::HEAD, names.count) {
        return Err(Refusal {
            reason: Reason::Newick,
            place: Place::Nowhere,
        });
    }
    Ok(names.count)
}
