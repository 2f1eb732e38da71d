//! A reader of a text, and the words that it reads.
ghost use Rattle.std.specs.Prelude.{◌+◌, ◌≤◌, length};

mod lines;
mod places;
mod words;

/// Reads a text from its front: `pos` is the byte to read next, on the line `line`, counted from 1.
// The place and not the rest alone: a fault tells the byte place.
#[derive(Clone, Copy)]
pub struct Reader<'a> {
    text: &'a [u8],
    pos: usize,
    line: usize,
    ghost inside: { pos ≤ length text.now },
    ghost counted: { line ≤ pos + 1 },
}

/// A word of the text: its bytes, as a slice of the text, and the place of the first of them.
// Two cases, and not a word with an Option beside it: who takes a token has to say which of the two it wants.
#[derive(Clone, Copy)]
pub enum Token<'a> {
    /// A word that spells no number.
    Word {
        place: usize,
        bytes: &'a [u8],
    },
    /// A number.
    Number {
        place: usize,
        bytes: &'a [u8],
        value: u32,
    },
}
