//! Judging the table.
ghost use Rattle.std.specs.Prelude.{◌≡◌};
ghost use Rattle.table.specs.Tables.{items};
ghost use Rattle.bench.specs.State.{state, on_numbers, judgement, after_judge};

use super::Bench;
use crate::verdict::Verdict;
use response::judge;
use table::table::Table;

/// A verdict on places as one on the numbers of the tasks there.
fn named(table: &Table, found: response::Verdict<usize>) -> Verdict
    ensures { result ≡ on_numbers (items table.now) found }
{
    match found {
        response::Verdict::Fits => Verdict::Fits,
        response::Verdict::Over { task: place, mode } => Verdict::Over {
            task: table.number_at(place),
            mode,
        },
    }
}

impl Bench {
    /// Judges the table; the verdict and the bounds stand until the next edit.
    pub fn judge(&mut self) -> Verdict
        ensures answer { result ≡ judgement (state self.old) }
        ensures after { state self.new ≡ after_judge (state self.old) }
    {
        let table = self.editor.table();
        match judge(table, &mut self.bounds) {
            Ok(found) => {
                let verdict = named(table, found);
                self.verdict = Some(verdict);
                verdict
            }
            Err(_) => unreachable(),
        }
    }
}
