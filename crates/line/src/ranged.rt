//! A change whose numbers are in their ranges.
ghost use Rattle.std.specs.Prelude.{◌≡◌, true, is_ok};
ghost use Rattle.line.specs.Answers.{MadeBy};
ghost use Rattle.line.specs.Changes.{change_numbers};

use crate::change::Change;
use crate::refusal::Refusal;

/// A change whose numbers are in their ranges.
#[derive(Clone, Copy)]
pub struct Ranged {
    change: Change,
    ghost ranged: { is_ok (change_numbers change) ≡ true },
}

impl Ranged {
    /// The change, or why its numbers are not those of one.
    pub fn new(change: Change) -> Result<Ranged, Refusal>
        ensures { MadeBy (change_numbers change) (λ r. r.change ≡ change) result }
    {
        change.check()?;
        Ok(Ranged { change })
    }

    /// What is changed, and to what.
    pub fn change(self) -> Change
        ensures { result ≡ self.change }
    {
        self.change
    }
}
