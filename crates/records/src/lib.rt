// The form of a sheet: records one behind the other and nothing else.
//   record   = length of the body (4 bytes), kind (2), body
//   matrix   = kind 1: N (2), then the N(N-1)/2 distances (2 each)
//   tree     = kind 2: N (2), V (2), then the V-1 parents (1 each)
//   lengths  = kind 3: D (4), K (2), then the K numerators (8 each, two's complement)
//   long     = kind 4: L (2), K (2), then the L digits of D and L levels of K digits (4 each, those of the levels two's complement);
//              in place of the lengths, in a long sheet
//   names    = kind 5: names one behind the other, each a length byte and its bytes
#![tactic(auto)]

ghost use Rattle.std.specs.Prelude.{◌≡◌, not, ◌&&◌, ◌+◌, ◌<◌, ◌≤◌, eqb, ltb, length};
ghost use Rattle.verdict.specs.Answer.{answer_of};
ghost use Rattle.endian.specs.Bytes.{number};
ghost use Rattle.records.specs.Names.{name_start, name_count};
ghost use Rattle.records.specs.Form.{max_records, longest, names_kind, kind_of, body_at, end_at, counts_out, names_at, long_out, body_out, record_tests, records_tests};
ghost use Rattle.records.specs.Laid.{Laid, LayoutAnswer};

use matrix::Matrix;
use tree::Tree;
use verdict::{Place, Reason, Refusal, Verdict};

// Where each record of a sheet of the form starts, then where the last one ends, then zeros.
#[derive(Clone, Copy)]
pub struct Layout {
    pub starts: [usize; Layout::MAX_STARTS],
}

impl Layout {
    // The bytes of a record's head.
    pub const HEAD: usize = 6;

    // Matrix, tree, lengths, names.
    pub const MAX_RECORDS: usize = 4;
    // As many places as there are records, and the end.
    pub const MAX_STARTS: usize = Layout::MAX_RECORDS + 1;
    // The most bytes of a sheet without names: three heads, and the bodies of the largest matrix, tree and lengths.
    pub const MAX_SHEET: usize = 3 * Layout::HEAD
        + (2 + 2 * Matrix::MAX_PAIRS)
        + (4 + Tree::MAX_EDGES)
        + (6 + 8 * Tree::MAX_EDGES);

    // The kind of long lengths.
    pub const LONG: usize = 4;
    // The kind of a names record.
    pub const NAMES: usize = 5;
    // The most bytes of a name.
    pub const MAX_NAME: usize = 10;
    // The most bytes of a sheet with names: one head more, and for each strain a length byte and the longest name.
    pub const MAX_NAMED: usize = Layout::MAX_SHEET
        + (Layout::HEAD + (Layout::MAX_NAME + 1) * Matrix::MAX_STRAINS);
}

// Names one behind the other: how many there are, and where the last one ends.
#[derive(Clone, Copy)]
pub struct Walk {
    pub count: usize,
    pub end: usize,
}

// The limit of a sheet of so many records.
fn limit(count: usize) -> usize
    ensures { result ≡ longest count }
{
    if count > 3 {
        return Layout::MAX_NAMED;
    }
    Layout::MAX_SHEET
}

// The kind that is due for record k, counted from 0.
fn kind_of(k: usize) -> usize
    requires { k < max_records }
    ensures { (result ≡ kind_of k) × (1 ≤ result) × (result ≤ names_kind) }
{
    if k == 3 {
        return Layout::NAMES;
    }
    k + 1
}

// The names that begin from one place on and before another.
pub fn names_in(s: &[u8], from: usize, to: usize) -> Walk
    requires { (from ≤ to) × (to ≤ length s.now) }
    ensures { (result.count ≡ name_count s.now from to) × (result.end ≡ name_start s.now from (name_count s.now from to)) }
{
    let mut at = from;
    let mut count = 0;
    // Each name says where the next begins, so nobody knows before how many there are.
    while at < to {
        at = at + 1 + s[at] as usize;
        count += 1;
    }
    Walk { count, end: at }
}

// The names of the record that starts at `at`.
pub fn names_at(s: &[u8], at: usize) -> Walk
    requires { end_at s.now at ≤ length s.now }
    ensures { (result.count ≡ names_at s.now at) × (result.end ≡ name_start s.now (body_at at) (names_at s.now at)) }
{
    let body = at + Layout::HEAD;
    names_in(s, body, body + endian::u32_at(s, at) as usize)
}

// 4: no room for the counts, V = 0, or a length that is not as the last count says. It says for N that N(N-1)
// bytes follow, for V one byte fewer than V, for K eight times K. With V = 0 the length would be below 4.
fn counts_out(s: &[u8], at: usize, kind: usize) -> bool
    requires { (1 ≤ kind) × (kind ≤ names_kind) × (end_at s.now at ≤ length s.now) }
    ensures { result ≡ counts_out s.now at kind }
{
    let size = endian::u32_at(s, at) as usize;
    let counts = 2 * kind;
    if size < counts {
        return true;
    }
    let body = at + Layout::HEAD;
    let count = endian::u16_at(s, body + (counts - 2)) as usize;
    if kind == 1 {
        return size != 2 + (count * count - count);
    }
    if kind == 2 {
        return size + 1 != 4 + count;
    }
    size != 6 + 8 * count
}

// 4 for long lengths: no room for L and K, or a length that is not as they say. It is that of L digits of D and L of each numerator,
// of four bytes each, behind L and K.
fn long_out(s: &[u8], at: usize) -> bool
    requires { end_at s.now at ≤ length s.now }
    ensures { result ≡ long_out s.now at }
{
    let size = endian::u32_at(s, at) as usize;
    if size < 4 {
        return true;
    }
    let body = at + Layout::HEAD;
    let levels = endian::u16_at(s, body) as usize;
    let edges = endian::u16_at(s, body + 2) as usize;
    size != 4 + 4 * (levels * (edges + 1))
}

// 4 by the kind: names that do not end with the body, or counts that are out.
fn body_out(s: &[u8], at: usize, kind: usize) -> bool
    requires { (1 ≤ kind) × (kind ≤ names_kind) × (end_at s.now at ≤ length s.now) }
    ensures { result ≡ body_out s.now at kind }
{
    if kind == Layout::NAMES {
        let names = names_at(s, at);
        return names.end != at + Layout::HEAD + endian::u32_at(s, at) as usize;
    }
    if kind == Layout::LONG {
        return long_out(s, at);
    }
    counts_out(s, at, kind)
}

// 2, 3, 4 for the record of that kind that starts at `at`, which is the place of each.
pub fn one_record(s: &[u8], at: usize, kind: usize) -> Verdict
    requires { (1 ≤ kind) × (kind ≤ names_kind) × (at ≤ length s.now) }
    ensures { answer_of result ≡ record_tests s.now at kind }
{
    let left = s.len() - at;
    if left < Layout::HEAD {
        return Err(Refusal {
            reason: Reason::RecordCut,
            place: Place::Byte(at),
        });
    }
    if left - Layout::HEAD < endian::u32_at(s, at) as usize {
        return Err(Refusal {
            reason: Reason::RecordCut,
            place: Place::Byte(at),
        });
    }
    if endian::u16_at(s, at + 4) as usize != kind {
        return Err(Refusal {
            reason: Reason::WrongKind,
            place: Place::Byte(at),
        });
    }
    if body_out(s, at, kind) {
        return Err(Refusal {
            reason: Reason::WrongCounts,
            place: Place::Byte(at),
        });
    }
    Ok(())
}

// 2, 3, 4 for each of so many records in turn.
pub fn in_turn(s: &[u8], count: usize) -> Result<Layout, Refusal>
    requires { count ≤ max_records }
    ensures { Laid (records_tests s.now count) count s.now result }
{
    let mut starts: [usize; Layout::MAX_STARTS] = arrays::filled(0);
    let mut at = 0;
    for k in 0..count {
        starts[k] = at;
        one_record(s, at, kind_of(k))?;
        at = at + Layout::HEAD + endian::u32_at(s, at) as usize;
    }
    starts[count] = at;
    Ok(Layout { starts })
}

// 4 in a sheet with names, also: the fourth record, which starts at `at`, has not as many names as the matrix has strains.
fn names_differ(s: &[u8], count: usize, at: usize) -> bool
    requires { 3 < count → (end_at s.now at ≤ length s.now) × (body_at 0 + 2 ≤ length s.now) }
    ensures { result ≡ (ltb 3 count && not (eqb (names_at s.now at) (number 2 s.now (body_at 0)))) }
{
    if count <= 3 {
        return false;
    }
    let names = names_at(s, at);
    names.count != endian::u16_at(s, Layout::HEAD) as usize
}

// The form of a sheet of so many records, three, without lengths two, or with names four: 1; 2, 3, 4 for each record in turn;
// 4 for names that are not N; 5 at the first byte behind the last record.
pub fn records(s: &[u8], count: usize) -> Result<Layout, Refusal>
    requires { count ≤ max_records }
    ensures { LayoutAnswer count s.now result }
{
    if s.len() > limit(count) {
        return Err(Refusal {
            reason: Reason::SheetTooLong,
            place: Place::Nowhere,
        });
    }
    let laid = in_turn(s, count)?;
    let names = laid.starts[3];
    if names_differ(s, count, names) {
        return Err(Refusal {
            reason: Reason::WrongCounts,
            place: Place::Byte(names),
        });
    }
    let end = laid.starts[count];
    if end < s.len() {
        return Err(Refusal {
            reason: Reason::BytesLeft,
            place: Place::Byte(end),
        });
    }
    Ok(laid)
}
