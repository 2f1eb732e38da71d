//! Where a reader stands.
ghost use Rattle.std.specs.Prelude.{◌≡◌, length, ◌==◌};
ghost use Rattle.forms.specs.Places.{start, rest_of};
ghost use Rattle.text.specs.Readers.{at};

use super::Reader;

impl<'a> Reader<'a> {
    /// Stands at the front of `text`, on its first line.
    pub fn new(text: &'a [u8]) -> Reader<'a>
        ensures { at result ≡ start text.now }
    {
        Reader {
            text,
            pos: 0,
            line: 1,
        }
    }

    /// The line that the reader is on, counted from 1.
    pub fn line(&self) -> usize
        ensures { result ≡ (at self.now).line }
    {
        self.line
    }

    /// The place of the byte to read next, counted from 0.
    pub fn place(&self) -> usize
        ensures { result ≡ (at self.now).pos }
    {
        self.pos
    }

    /// Whether the text ends here.
    pub fn is_done(&self) -> bool
        ensures { result ≡ (length (rest_of (at self.now)) == 0) }
    {
        self.rest().is_empty()
    }
}
