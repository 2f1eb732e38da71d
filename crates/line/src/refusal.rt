//! Why a call is refused.
ghost use Rattle.std.specs.Prelude.{◌≡◌};
ghost use Rattle.line.specs.Refusals.{number_of};
ghost use Rattle.line.specs.declared.refusal.Refusal.TheVariants.{NoMemory};

use std::alloc::AllocError;

/// The refusals of every call, each with its number. A call tries them by rising number.
#[derive(Clone, Copy, PartialEq, Eq, Debug)]
pub enum Refusal {
    /// A number, or a text's length, is out of its range.
    OutOfRange = 1,
    /// The work sheet, the cells, the list or the output is too short.
    TooShort = 2,
    /// A cost is above its deadline.
    CostAboveDeadline = 3,
    /// A deadline is above the period.
    DeadlineAbovePeriod = 4,
    /// A line of text has none of the five forms.
    NoForm = 5,
    /// The trailer is missing, followed by anything, or wrong.
    Trailer = 6,
    /// A run is open.
    RunOpen = 11,
    /// A draft is open.
    DraftOpen = 12,
    /// The bench has no draft or run for this ticket.
    NoTicket = 13,
    /// The bench has tasks.
    HasTasks = 14,
    /// There is no room for another task, angular task, mode or joined line.
    NoRoom = 15,
    /// The number is in the table.
    NumberTaken = 16,
    /// The task, mode or link named is not there.
    NotThere = 17,
    /// The pair is linked.
    Linked = 18,
    /// The gap is below the deadline of the mode that it leaves.
    GapBelowDeadline = 19,
    /// There is no mode, or a mode would have no link out.
    NoLinkOut = 20,
    /// The cost is not smaller, or the gap not larger.
    NotReduced = 21,
    /// The released cost is above the mode's.
    CostAboveMode = 22,
    /// There is no such link, or the release is too early.
    NotYet = 23,
    /// The run has ended late.
    EndedLate = 24,
    /// The clock would pass its limit.
    PastClock = 25,
    /// No memory was to be had.
    NoMemory = 40,
}

impl Refusal {
    /// The refusal's number.
    pub fn number(self) -> u8
        ensures { result ≡ number_of self }
    {
        // A cast: it gives the number written at the variant.
        self as u8
    }
}

impl From<AllocError> for Refusal {
    ghost from_gives = { λ _ r. r ≡ NoMemory };

    fn from(_e: AllocError) -> Refusal {
        Refusal::NoMemory
    }
}
