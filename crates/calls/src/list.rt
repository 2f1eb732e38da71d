//! Reading a list call by call.
ghost use Rattle.std.specs.Prelude.{◌≡◌, option_map};
ghost use Rattle.std.specs.Result.{result_ok};
ghost use Rattle.std.specs.Iterator.{YieldsFirstBy, item_count};
ghost use Rattle.calls.specs.Lists.{lending_call, call_of, remark, entry_of, read, load_length, load_of, first_read, calls_left, calls_of};

use crate::call::{Call, Entry, Length, Memory, NoCall};
use crate::names::named;
use crate::words::{cut_at, numbers_of};
use forms::separator::{LINE_FEED, SPACE};

// The text stands beside the call, not in `Call::Load`: a call is copied as numbers alone.

/// The byte that a remark begins with.
const REMARK: u8 = b'#';

/// What the first line of a list is; the text that its call brings; and the rest of the list.
#[derive(Drop)]
pub struct Step<'a> {
    pub entry: Entry,
    pub text: &'a [u8],
    pub rest: &'a [u8],
}

/// The call of a line that says what is lent, and how much of it.
fn lending(name: &[u8], words: Option<&[u8]>) -> Result<Call, NoCall>
    ensures { result_ok result ≡ lending_call name.now (option_map (λ w. w.now) words.entry) }
{
    let length = Length::try_from(name)?;
    let memory = Memory::try_from(words.ok_or(NoCall)?)?;
    Ok(Call::Lend(memory, length))
}

impl TryFrom<&[u8]> for Call {
    type Error = NoCall;

    ghost try_from_gives = { λ line r. result_ok r ≡ call_of line.now };

    fn try_from(line: &[u8]) -> Result<Call, NoCall> {
        let (name, words) = cut_at(line, SPACE);
        if let Ok(call) = lending(name, words) {
            return Ok(call);
        }
        let numbers = numbers_of(words).ok_or(NoCall)?;
        named(name, &numbers).ok_or(NoCall)
    }
}

/// Whether a line is passed over: an empty one, or one that begins with `#`.
fn is_remark(line: &[u8]) -> bool
    ensures { result ≡ remark line.now }
{
    matches!(line, [] | [REMARK, ..])
}

/// What a line is.
#[tactic(auto, unfolding(crate::specs::Lists::entry_of))]
fn entry_of(line: &[u8]) -> Entry
    ensures { result ≡ entry_of line.now }
{
    if is_remark(line) {
        return Entry::Remark;
    }
    Call::try_from(line).map_or(Entry::Unknown, Entry::Call)
}

/// The length of the text that a call brings, if the line is one that brings one.
fn load_length(entry: Entry) -> Option<u32>
    ensures { result ≡ load_length entry }
{
    match entry {
        Entry::Call(Call::Load(length)) => Some(length),
        _ => None,
    }
}

// Cut by a length that a call has; an input of texts cuts by a line that says the length, and has texts alone.

/// A load with its text, which a byte has to follow.
fn with_text(length: u32, rest: &[u8]) -> Step<'_>
    ensures { read result ≡ load_of length rest.now }
{
    // A cast, since a `usize` is not made from a `u32` by `from`.
    let end = length as usize;
    if end < rest.len() {
        Step {
            entry: Entry::Call(Call::Load(length)),
            text: &rest[0..end],
            rest: &rest[end + 1..],
        }
    } else {
        Step {
            entry: Entry::Unknown,
            text: b"",
            rest,
        }
    }
}

/// What the first line of a list is, with the text that it brings.
pub fn first_call(list: &[u8]) -> Step<'_>
    ensures { read result ≡ first_read list.now }
{
    let (line, after) = cut_at(list, LINE_FEED);
    let rest = after.unwrap_or(b"");
    let entry = entry_of(line);
    match load_length(entry) {
        Some(length) => with_text(length, rest),
        None => Step {
            entry,
            text: b"",
            rest,
        },
    }
}

/// The calls of a list, in their order, with the lines between them that are none.
#[derive(Drop)]
pub struct Calls<'a> {
    rest: &'a [u8],
}

impl<'a> Calls<'a> {
    /// The calls of that list.
    pub fn new(list: &'a [u8]) -> Calls<'a>
        ensures { calls_left result ≡ calls_of list.now }
    {
        Calls { rest: list }
    }
}

impl<'a> Iterator for Calls<'a> {
    type Item = Step<'a>;

    ghost next_gives = { YieldsFirstBy read calls_left };

    ghost remaining = { item_count calls_left };

    fn next(&mut self) -> Option<Step<'a>> {
        if self.rest.is_empty() {
            return None;
        }
        let first = first_call(self.rest);
        self.rest = first.rest;
        Some(first)
    }
}
