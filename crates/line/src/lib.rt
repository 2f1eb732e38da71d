//! Lines of tasks: what a task table means to the response-time test and to a run.
//!
//! A line has up to 16 tasks by priority. It is asked for its numbers and, for a window of ticks,
//! for the most work that a task can ask for in it. What a line means is one value, the ghost
//! member `meaning`; the limits and laws that it keeps are the ghost predicate `lawful`.
//! `ExactLine` is a line that also shows a walk whose work is that most. `Joined` puts one line
//! below another. `Refusal` has the numbers with which every call of the library refuses.
#![tactic(auto)]

ghost use Rattle.std.specs.Prelude.{◌≡◌, ℕ, List};
ghost use Rattle.line.specs.Meaning.{Meaning, task_at, modes_in, cost_in, deadline_in, gap_in, most_in};
ghost use Rattle.line.specs.Lawful.{Lawful};
ghost use Rattle.line.specs.Shows.{ShowDone};

use crate::refusal::Refusal;

pub mod change;
pub mod joined;
pub mod limits;
pub mod ranged;
pub mod refusal;

/// A line of tasks by priority; place 0 is the highest.
///
/// Every question may be asked with any number, and changes nothing: in its range it answers from
/// the meaning, outside it 0, and for a gap none.
// 0 and not an Option, since whoever sums or compares then needs no case for what is not there (docs/MODEL.md).
pub trait Line {
    /// What the line means: the numbers that its questions answer from.
    ghost meaning: { Self → Meaning };

    /// The line keeps the limits and laws; whatever makes a line has to show it.
    ghost lawful: { Self → Type 0 };

    /// How many tasks there are.
    fn count(&self) -> usize
        ensures { result ≡ (meaning self.now).count };

    /// How many modes the task at a place has.
    fn modes(&self, place: usize) -> usize
        ensures { result ≡ modes_in (task_at (meaning self.now) place) };

    /// The most ticks that one job in a mode runs.
    fn cost(&self, place: usize, mode: usize) -> u32
        ensures { result ≡ cost_in (task_at (meaning self.now) place) mode };

    /// A mode's deadline, in ticks from release.
    fn deadline(&self, place: usize, mode: usize) -> u32
        ensures { result ≡ deadline_in (task_at (meaning self.now) place) mode };

    /// The least gap after which one mode may follow another, if it may.
    fn gap(&self, place: usize, from: usize, to: usize) -> Option<u32>
        ensures { result ≡ gap_in (task_at (meaning self.now) place) from to };

    /// A bound on the work that the task at a place can release in a window of ticks.
    fn most(&self, place: usize, window: u32) -> u32
        ensures { result ≡ most_in (task_at (meaning self.now) place) window };

    ghost keeps: { (x : Self) → lawful x → Lawful (meaning x) };
}

/// A line whose `most` is reached: it shows, for each window, a walk that fits it and has that work.
pub trait ExactLine: Line {
    /// What showing the task at a place makes of the work sheet.
    ghost leaves: { Self → ℕ → List ℕ → List ℕ → Type 0 };

    /// Writes a walk of the task at a place that fits the window and whose work is `most`, and
    /// answers its length; later cells of the list stay.
    // Sheet and list are lent, any that are long enough: a struct of the two would have to say that they are still the
    // caller's.
    fn show(
        &self,
        place: usize,
        window: u32,
        sheet: &mut [u32],
        list: &mut [u8],
    ) -> Result<usize, Refusal>
        ensures { ShowDone (Self.Line.meaning self.now) (leaves self.now place) place window sheet.old sheet.new list.old list.new result };
}
