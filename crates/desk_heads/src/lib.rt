// What a line is by its length, its first byte and its first word.
#![tactic(auto)]

ghost use Rattle.desk_heads.specs.Heads.{KindOf, HeadRead};

use desk_text::View;

// The most bytes that a line may have without its end, and the most words that it can then have.
pub const MAX_LINE: usize = 16384;

pub const MAX_WORDS: usize = 8192;

// What a line is by its first word.
#[derive(Clone, Copy, PartialEq, Eq)]
pub enum Kind {
    Silent,
    Post,
    Propose,
    Correct,
    Withdraw,
    Show(View),
}

// The kind that a first word makes a line; none where no line begins with it.
fn kind_of(word: &[u8]) -> Option<Kind>
    ensures { KindOf word.now result }
{
    if digits::same(word, b"post") {
        return Some(Kind::Post);
    }
    if digits::same(word, b"propose") {
        return Some(Kind::Propose);
    }
    if digits::same(word, b"correct") {
        return Some(Kind::Correct);
    }
    if digits::same(word, b"withdraw") {
        return Some(Kind::Withdraw);
    }
    if digits::same(word, b"report") {
        return Some(Kind::Show(View::Report));
    }
    if digits::same(word, b"pairs") {
        return Some(Kind::Show(View::Pairs));
    }
    None
}

// The kind of a line, and where its first word ends.
#[derive(Clone, Copy)]
pub struct Head {
    pub kind: Kind,
    pub end: usize,
}

// None where the line is too long or its first word is none of these.
pub fn head_of(line: &[u8]) -> Option<Head>
    ensures { HeadRead line.now result }
{
    if line.len() > MAX_LINE {
        return None;
    }
    if digits::byte_at(line, 0) == b'#' {
        return Some(Head {
            kind: Kind::Silent,
            end: 0,
        });
    }
    let first = desk_words::word_at(line, 0);
    let end = first.end;
    if first.start == end {
        return Some(Head {
            kind: Kind::Silent,
            end,
        });
    }
    let kind = kind_of(&line[first.start..end])?;
    Some(Head { kind, end })
}
