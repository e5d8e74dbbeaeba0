// Reads calls on a desk from standard input, one a line, and answers each before it reads on: `ok`, the report, the pairs, `refused`, the
// number and the place, or `refused line` (RULES, The desk's lines). Where reading or writing fails nothing more is read.
#![tactic(auto)]

ghost use Rattle.std.specs.Prelude.{◌≡◌, ◌+◌, ◌≤◌, ◌<◌, length, IfSome};
ghost use Rattle.pair_lines.specs.Lines.{pairs_page};
ghost use Rattle.desk_text.specs.Meaning.{max_line, max_words};
ghost use Rattle.desk.specs.Held.{Held};

use desk::Desk;
use desk_heads::MAX_WORDS;
use pair_lines::PAGE;

// The longest line with CR LF: a buffer that is full and has no LF holds more bytes of one line than a line may have.
const ROOM: usize = 16386;

// One line: its answer goes out before anything more is read. The desk after it, where the answer went out.
fn turn(
    rt: &(impl Print + Eprint),
    desk: Desk,
    line: &[u8],
    numbers: &mut [u16],
    distances: &mut [u16],
    parents: &mut [u8],
    numerators: &mut [i64],
    page: &mut [u8],
) -> Option<Desk>
    requires held { Held desk }
    requires max_words_in_bounds { (max_words ≤ length numbers.old) × (max_words ≤ length distances.old) × (max_words ≤ length parents.old) × (max_words ≤ length numerators.old) × (pairs_page ≤ length page.old) }
    ensures { IfSome result (λ d. Held d) }
{
    let told = desk_turn::tell(desk, line, numbers, distances, parents, numerators, page);
    if !streams::put_out(rt, told.length, page) {
        return None;
    }
    Some(told.desk)
}

// Where the lines of a buffer leave off: the desk, the first byte that is not answered, and whether a line began before the buffer's
// first byte.
#[derive(Clone, Copy)]
struct Left {
    desk: Desk,
    at: usize,
    long: bool,
}

// The line from one place to another, or a line that began before the buffer.
fn one(
    rt: &(impl Print + Eprint),
    desk: Desk,
    long: bool,
    space: &[u8],
    from: usize,
    to: usize,
    numbers: &mut [u16],
    distances: &mut [u16],
    parents: &mut [u8],
    numerators: &mut [i64],
    page: &mut [u8],
) -> Option<Desk>
    requires held { Held desk }
    requires from_le_to { (from ≤ to) × (to ≤ length space.now) × (max_words ≤ length numbers.old) × (max_words ≤ length distances.old) × (max_words ≤ length parents.old) × (max_words ≤ length numerators.old) × (pairs_page ≤ length page.old) }
    ensures { IfSome result (λ d. Held d) }
{
    if long {
        return turn(
            rt, desk, space, numbers, distances, parents, numerators, page,
        );
    }
    turn(
        rt,
        desk,
        &space[from..to],
        numbers,
        distances,
        parents,
        numerators,
        page,
    )
}

// Every line of the buffer's first `count` bytes whose end has come. A line that began before the buffer is too long, whatever it holds:
// it is answered as any line too long is, by the whole buffer. The page is lent, for it is large and need not be blank. Nothing where an
// answer did not go out.
fn lines(
    rt: &(impl Print + Eprint),
    desk: Desk,
    began: bool,
    space: &[u8],
    count: usize,
    page: &mut [u8],
) -> Option<Left>
    requires held { Held desk }
    requires count_in_bounds { (count ≤ length space.now) × (pairs_page ≤ length page.old) }
    ensures { IfSome result (λ left. Held left.desk × (left.at ≤ count)) }
{
    let mut numbers: [u16; MAX_WORDS] = arrays::filled(0);
    let mut distances: [u16; MAX_WORDS] = arrays::filled(0);
    let mut parents: [u8; MAX_WORDS] = arrays::filled(0);
    let mut numerators: [i64; MAX_WORDS] = arrays::filled(0);
    let mut now = desk;
    let mut long = began;
    let mut at = 0;
    while let Some(found) = desk_feed::line_at(&space[..count], at) {
        now = one(
            rt,
            now,
            long,
            space,
            at,
            found.end,
            &mut numbers,
            &mut distances,
            &mut parents,
            &mut numerators,
            page,
        )?;
        long = false;
        at = found.next;
    }
    Some(Left {
        desk: now,
        at,
        long,
    })
}

// The last line, which has no end: all that is left of the buffer.
fn last_line(
    rt: &(impl Print + Eprint),
    desk: Desk,
    long: bool,
    space: &[u8],
    count: usize,
    page: &mut [u8],
)
    requires held { Held desk }
    requires count_in_bounds { (count ≤ length space.now) × (pairs_page ≤ length page.old) }
{
    let mut numbers: [u16; MAX_WORDS] = arrays::filled(0);
    let mut distances: [u16; MAX_WORDS] = arrays::filled(0);
    let mut parents: [u8; MAX_WORDS] = arrays::filled(0);
    let mut numerators: [i64; MAX_WORDS] = arrays::filled(0);
    one(
        rt,
        desk,
        long,
        space,
        0,
        count,
        &mut numbers,
        &mut distances,
        &mut parents,
        &mut numerators,
        page,
    );
}

// How reading goes on: the bytes of a line that has no end yet stand at the front of the buffer, or the line is too long and they are
// let go.
#[derive(Clone, Copy)]
struct Rest {
    count: usize,
    long: bool,
}

fn kept(count: usize, long: bool) -> Rest
    requires { count ≤ max_line + 2 }
    ensures { result.count < max_line + 2 }
{
    if count == ROOM {
        return Rest {
            count: 0,
            long: true,
        };
    }
    Rest { count, long }
}

fn main(rt: HostRuntime) {
    let mut desk = desk::empty();
    let mut space: [u8; ROOM] = arrays::filled(0);
    let mut page: [u8; PAGE] = arrays::filled(0);
    let mut count = 0;
    let mut long = false;
    for _ in 0..u64::MAX {
        let Some(next) = streams::take_more(&rt, &mut space, count) else {
            return;
        };
        if next == count {
            last_line(&rt, desk, long, &space, count, &mut page);
            return;
        }
        let Some(left) = lines(&rt, desk, long, &space, next, &mut page) else {
            return;
        };
        desk = left.desk;
        let moved = desk_feed::move_front(&mut space, left.at, next);
        let rest = kept(moved, left.long);
        count = rest.count;
        long = rest.long;
    }
}
