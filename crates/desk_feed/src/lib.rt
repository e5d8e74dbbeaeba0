// Lines cut from a buffer that is fed piece by piece (RULES, The desk's lines): where the next line ends, and what is left moved to the
// front.
#![tactic(auto)]

ghost use Rattle.std.specs.Prelude.{◌≡◌, ◌+◌, ◌-◌, ◌≤◌, ◌<◌, length, take, drop};
ghost use Rattle.digits.specs.Digits.{run};
ghost use Rattle.desk_feed.specs.Feed.{in_line, end_of, LineFound, Moved};

// Where the bytes of a line end: at LF, or at the end of what is there.
fn feed_end(text: &[u8], at: usize) -> usize
    requires { at ≤ length text.now }
    ensures { (result ≡ at + run in_line (drop at text.now)) × (result ≤ length text.now) }
{
    for end in at..text.len() {
        if text[end] == 10 {
            return end;
        }
    }
    text.len()
}

// Where a line ends that begins at a place and has LF at another: a CR right before LF belongs to the line's end.
fn without_cr(text: &[u8], from: usize, at: usize) -> usize
    requires { (from ≤ at) × (at < length text.now) }
    ensures { result ≡ end_of text.now from at }
{
    if at == from {
        return at;
    }
    if text[at - 1] == 13 {
        return at - 1;
    }
    at
}

// A line whose end has come: where its bytes end, and where the next line begins.
#[derive(Clone, Copy)]
pub struct Found {
    pub end: usize,
    pub next: usize,
}

// The line that begins at a place, once its end has come.
pub fn line_at(text: &[u8], from: usize) -> Option<Found>
    requires { from ≤ length text.now }
    ensures { LineFound text.now from result }
{
    let at = feed_end(text, from);
    if at == text.len() {
        return None;
    }
    Some(Found {
        end: without_cr(text, from, at),
        next: at + 1,
    })
}

// Moves the bytes from one place to another to the front; how many they are.
pub fn move_front(space: &mut [u8], from: usize, to: usize) -> usize
    requires { (from ≤ to) × (to ≤ length space.old) }
    ensures { Moved space.old from to space.new result }
{
    space.copy_within(from..to, 0);
    to - from
}
