//! The words of a line, and what stands between them.
ghost use Rattle.std.specs.Prelude.{◌≡◌, ◌≤◌, length, position};
ghost use Rattle.forms.specs.Places.{rest_of, next_is};
ghost use Rattle.text.specs.Readers.{at, seen};
ghost use Rattle.forms.specs.Words.{separates, word_len, token_at, past_word};
ghost use Rattle.forms.specs.Lines.{out, byte_of, line_end_of, number_at, field_of};

use super::{Reader, Token};
use forms::form::NoForm;
use forms::number::number_of;
use forms::separator::{LINE_FEED, SPACE};

/// Where the first separator stands, if there is one.
fn first_separator(text: &[u8]) -> Option<usize>
    ensures { result ≡ position separates text.now }
{
    text.iter()
        .position(|byte| *byte == SPACE || *byte == LINE_FEED)
}

/// How many bytes stand in front of the first separator.
fn word_len(text: &[u8]) -> usize
    ensures is { result ≡ word_len text.now }
    ensures within { result ≤ length text.now }
{
    first_separator(text).unwrap_or(text.len())
}

impl<'a> Reader<'a> {
    /// The text from here on.
    pub(super) fn rest(&self) -> &'a [u8]
        ensures { result.now ≡ rest_of (at self.now) }
    {
        &self.text[self.pos..]
    }

    /// Whether the byte that stands here is `byte`.
    fn next_is(&self, byte: u8) -> bool
        ensures { result ≡ next_is byte (at self.now) }
    {
        self.text.get(self.pos) == Some(&byte)
    }

    /// The word that begins here.
    pub(super) fn word(&mut self) -> Token<'a>
        ensures token { seen result ≡ token_at (at self.old) }
        ensures moved { at self.new ≡ past_word (at self.old) }
    {
        let place = self.pos;
        let rest = self.rest();
        let len = word_len(rest);
        let bytes = &rest[..len];
        self.pos = place + len;
        match number_of(bytes) {
            Some(value) => Token::Number {
                place,
                bytes,
                value,
            },
            None => Token::Word { place, bytes },
        }
    }

    /// One byte.
    fn skip(&mut self, byte: u8) -> Result<(), NoForm>
        ensures { out result (at self.new) ≡ byte_of byte (at self.old) }
    {
        if !self.next_is(byte) {
            return Err(NoForm);
        }
        self.pos += 1;
        Ok(())
    }

    /// The end of a line.
    pub(super) fn line_end(&mut self) -> Result<(), NoForm>
        ensures { out result (at self.new) ≡ line_end_of (at self.old) }
    {
        self.skip(LINE_FEED)?;
        self.line += 1;
        Ok(())
    }

    /// A number.
    fn number(&mut self) -> Result<u32, NoForm>
        ensures { out result (at self.new) ≡ number_at (at self.old) }
    {
        match self.word() {
            Token::Number { value, .. } => Ok(value),
            Token::Word { .. } => Err(NoForm),
        }
    }

    /// A space and a number.
    pub(super) fn field(&mut self) -> Result<u32, NoForm>
        ensures { out result (at self.new) ≡ field_of (at self.old) }
    {
        self.skip(SPACE)?;
        self.number()
    }
}
