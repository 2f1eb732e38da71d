//! The five forms of a line of text.
ghost use Rattle.std.specs.Prelude.{◌≡◌};
ghost use Rattle.line.specs.declared.refusal.Refusal.TheVariants.{NoForm as Refused};
ghost use Rattle.forms.specs.Format.{keyword, numbers};
ghost use Rattle.forms.specs.Keywords.{word_of};

use crate::keyword::Keyword;
use arrayvec::ArrayVec;
use line::refusal::Refusal;

/// A form has at most this many numbers.
pub const NUMBERS: usize = 4;

/// A line of a table's text.
#[derive(Clone, Copy, PartialEq, Eq, Debug)]
pub enum Form {
    /// A sporadic task.
    Sporadic {
        number: u32,
        cost: u32,
        period: u32,
        deadline: u32,
    },
    /// An angular task; its modes and links follow.
    Angular {
        number: u32,
    },
    /// A mode of the angular task above.
    Mode {
        cost: u32,
        deadline: u32,
    },
    /// A link between two modes of the angular task above.
    Link {
        from: u32,
        to: u32,
        gap: u32,
    },
    /// The trailer: how many tasks there are, and the place of the last one's first line.
    End {
        count: u32,
        place: u32,
    },
}

impl Form {
    /// The first word.
    pub fn keyword(self) -> Keyword
        ensures { word_of result ≡ keyword self }
    {
        match self {
            Form::Sporadic { .. } => Keyword::Sporadic,
            Form::Angular { .. } => Keyword::Angular,
            Form::Mode { .. } => Keyword::Mode,
            Form::Link { .. } => Keyword::Link,
            Form::End { .. } => Keyword::End,
        }
    }

    /// The numbers, in the order in which they stand.
    pub fn numbers(self) -> ArrayVec<u32, NUMBERS>
        ensures { result.items ≡ numbers self }
    {
        let mut numbers = ArrayVec::new();
        match self {
            Form::Sporadic {
                number,
                cost,
                period,
                deadline,
            } => {
                numbers.push(number);
                numbers.push(cost);
                numbers.push(period);
                numbers.push(deadline);
            }
            Form::Angular { number } => numbers.push(number),
            Form::Mode { cost, deadline } => {
                numbers.push(cost);
                numbers.push(deadline);
            }
            Form::Link { from, to, gap } => {
                numbers.push(from);
                numbers.push(to);
                numbers.push(gap);
            }
            Form::End { count, place } => {
                numbers.push(count);
                numbers.push(place);
            }
        }
        numbers
    }
}

/// The line that begins here has none of the five forms.
#[derive(Clone, Copy, PartialEq, Eq, Debug)]
pub struct NoForm;

impl From<NoForm> for Refusal {
    ghost from_gives = { λ _ r. r ≡ Refused };

    fn from(_none: NoForm) -> Refusal {
        Refusal::NoForm
    }
}
