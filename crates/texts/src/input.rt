//! The texts of an input, one after another.
ghost use Rattle.std.specs.Prelude.{◌≡◌, ◌==◌, option_map, position};
ghost use Rattle.std.specs.Iterator.{YieldsFirstBy, item_count};
ghost use Rattle.texts.specs.Texts.{number_64, first_text, in_two, texts_left, texts_of};

use forms::number::digits_up_to;
use forms::separator::LINE_FEED;

/// The number that digits spell.
fn number_of(digits: &[u8]) -> Option<usize>
    ensures { result ≡ number_64 digits.now }
{
    // A cast, since a `usize` is not made from a `u64` by `from`.
    digits_up_to(u64::MAX, digits).map(|number| number as usize)
}

// A small search of its own, as the lists of calls have theirs for each byte: what they share is std's `position`.

/// The place of the first line feed.
fn line_end(bytes: &[u8]) -> Option<usize>
    ensures { result ≡ position (λ byte. byte == 10) bytes.now }
{
    bytes.iter().position(|byte| *byte == LINE_FEED)
}

// Cut by a line that says the length; a list of calls cuts by a length that a call has, and has calls around it.

/// The first text, and what follows it and its line feed.
fn first(bytes: &[u8]) -> Option<(&[u8], &[u8])>
    ensures { option_map in_two result ≡ first_text bytes.now }
{
    let place = line_end(bytes)?;
    let length = number_of(&bytes[..place])?;
    let rest = &bytes[place + 1..];
    if length < rest.len() {
        Some((&rest[..length], &rest[length + 1..]))
    } else {
        None
    }
}

/// The texts of an input, up to the first that is not whole.
#[derive(Drop)]
pub struct Texts<'a> {
    rest: &'a [u8],
}

impl<'a> Texts<'a> {
    /// The texts of that input.
    pub fn new(input: &'a [u8]) -> Texts<'a>
        ensures { texts_left result ≡ texts_of input.now }
    {
        Texts { rest: input }
    }
}

impl<'a> Iterator for Texts<'a> {
    type Item = &'a [u8];

    ghost next_gives = { YieldsFirstBy (λ text. text.now) texts_left };

    ghost remaining = { item_count texts_left };

    fn next(&mut self) -> Option<&'a [u8]> {
        let (text, rest) = first(self.rest)?;
        self.rest = rest;
        Some(text)
    }
}
