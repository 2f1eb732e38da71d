//! A task that says, to be safe, that it asks for more than it can.
ghost use Rattle.std.specs.Prelude.{◌≡◌, ◌≤◌};
ghost use Rattle.line.specs.Answers.{MadeBy};
ghost use Rattle.line.specs.Meaning.{sole};
ghost use Rattle.sporadic.specs.Tasks.{sporadic_answer};
ghost use Rattle.cases.specs.Guards.{guarded_most, guarded_task};
ghost use Rattle.cases.specs.Counting.{counted_laws};
ghost use Rattle.line.proofs.Facts.{sole_lawful};
ghost use Rattle.std.proofs.Common.{arith};
ghost use Rattle.std.proofs.lemmas.Bool.Decides.{nat_tests};

use line::Line;
use line::limits::WINDOW;
use line::refusal::Refusal;
use sporadic::Sporadic;

/// A sporadic task that for each window counts one job more than there are whole periods.
#[derive(Clone, Copy)]
pub struct Guarded {
    task: Sporadic,
}

impl Guarded {
    /// A task of these numbers, or why there is none.
    pub fn new(cost: u32, period: u32, deadline: u32) -> Result<Guarded, Refusal>
        ensures { MadeBy (sporadic_answer cost period deadline) (λ s. (s.task.cost ≡ cost) × (s.task.period ≡ period) × (s.task.deadline ≡ deadline)) result }
    {
        let task = Sporadic::new(cost, period, deadline)?;
        Ok(Guarded { task })
    }

    // A window is a plain number with its bound: it is divided here and nothing more.

    /// The work that it counts with in a window.
    fn counted(&self, window: u32) -> u32
        requires { window ≤ 1000 }
        ensures { result ≡ guarded_most self.now.task.cost self.now.task.period window }
    {
        if window == 0 {
            return 0;
        }
        self.task.cost() * (window / self.task.period() + 1)
    }
}

impl Line for Guarded {
    ghost meaning = { λ s. sole (guarded_task s.task.cost s.task.period s.task.deadline) };

    ghost lawful = { λ _. Unit {0} };

    ghost keeps = { λ s h. sole_lawful _ (counted_laws s.task.cost s.task.period s.task.deadline (guarded_most s.task.cost s.task.period) s.task.some s.task.fits s.task.near s.task.first s.task.often (λ w some. Prim.grind (arith, nat_tests)) (λ w. Prim.grind (arith, nat_tests))) };

    fn count(&self) -> usize {
        self.task.count()
    }

    fn modes(&self, place: usize) -> usize {
        self.task.modes(place)
    }

    fn cost(&self, place: usize, mode: usize) -> u32 {
        <Sporadic as Line>::cost(&self.task, place, mode)
    }

    fn deadline(&self, place: usize, mode: usize) -> u32 {
        <Sporadic as Line>::deadline(&self.task, place, mode)
    }

    fn gap(&self, place: usize, from: usize, to: usize) -> Option<u32> {
        self.task.gap(place, from, to)
    }

    fn most(&self, place: usize, window: u32) -> u32 {
        if place == 0 && window <= WINDOW {
            self.counted(window)
        } else {
            0
        }
    }
}
