//! The tickets of what a bench has open: a draft, or a run.
ghost use Rattle.std.specs.Prelude.{◌≡◌, true, false};

use std::marker::PhantomData;

/// A draft's ticket is of drafting.
pub struct Drafting;

/// A run's ticket is of running.
pub struct Running;

/// The ticket of what is open on a bench. It bears the number of that bench, and it has to be spent: the build refuses
/// code that lets go of one that is not.
#[must_use]
pub struct Ticket<Of> {
    bench: u32,
    spent: bool,
    of: PhantomData<Of>,
}

/// The ticket of an open draft.
pub type Draft = Ticket<Drafting>;

/// The ticket of an open run.
pub type Run = Ticket<Running>;

impl<Of> Drop for Ticket<Of> {
    fn drop(self)
        requires spent { self.spent ≡ true }
    {
        let Self {
            bench: _,
            spent: _,
            of: _,
        } = self;
    }
}

impl<Of> Ticket<Of> {
    pub(crate) fn of(bench: u32) -> Ticket<Of>
        ensures bench { result.bench ≡ bench }
        ensures spent { result.spent ≡ false }
    {
        Ticket {
            bench,
            spent: false,
            of: PhantomData,
        }
    }

    /// The number of the bench that handed it out.
    pub fn bench(&self) -> u32
        ensures { result ≡ self.now.bench }
    {
        self.bench
    }

    /// Spends the ticket.
    pub(crate) fn spend(mut self) {
        self.spent = true;
    }
}
