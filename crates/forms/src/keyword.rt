//! The words that begin a line.
ghost use Rattle.std.specs.Prelude.{◌≡◌};
ghost use Rattle.forms.specs.Keywords.{key_of, or_formless, word_of};

use crate::form::NoForm;

/// The first word of each form.
#[derive(Clone, Copy)]
pub enum Keyword {
    Sporadic,
    Angular,
    Mode,
    Link,
    End,
}

impl Keyword {
    /// The word.
    pub fn word(self) -> &'static [u8]
        ensures { result.now ≡ word_of self }
    {
        match self {
            Keyword::Sporadic => b"sporadic",
            Keyword::Angular => b"angular",
            Keyword::Mode => b"mode",
            Keyword::Link => b"link",
            Keyword::End => b"end",
        }
    }
}

// A second table and no search: a search needs a list of all keywords, a third table, and is no plainer.

/// The keyword that a word spells, if it spells one.
impl<'a> TryFrom<&'a [u8]> for Keyword {
    type Error = NoForm;

    ghost try_from_gives = { λ word r. r ≡ or_formless (key_of word.now) };

    fn try_from(word: &'a [u8]) -> Result<Keyword, NoForm> {
        match word {
            b"sporadic" => Ok(Keyword::Sporadic),
            b"angular" => Ok(Keyword::Angular),
            b"mode" => Ok(Keyword::Mode),
            b"link" => Ok(Keyword::Link),
            b"end" => Ok(Keyword::End),
            _ => Err(NoForm),
        }
    }
}
