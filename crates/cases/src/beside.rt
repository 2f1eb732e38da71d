//! A table and a line of somebody's own, judged together.
ghost use Rattle.std.specs.Prelude.{◌≡◌, length, IfOk};
ghost use Rattle.line.specs.Joins.{joined};
ghost use Rattle.response.specs.Judgements.{Judged};
ghost use Rattle.table.specs.Items.{line_of};
ghost use Rattle.table.specs.Tables.{items};
ghost use Rattle.cases.specs.Beside.{guarded_line, beside_answer, beside_cells};

use crate::guarded::Guarded;
use line::Line;
use line::joined::{join, may_join};
use line::refusal::Refusal;
use response::{CELLS, Verdict, judge};
use table::table::Table;

/// Judges a table with a guarded task on top of it, and shows the bounds as the judge does.
///
/// Fewer than 256 cells are refused, and then a table of 16 tasks, which leaves no room; a refusal
/// changes no cell.
pub fn judge_with(table: Table, own: Guarded, cells: &mut [u32]) -> Result<Verdict<usize>, Refusal>
    ensures answer { result ≡ beside_answer (guarded_line own) (line_of (items table)) (length cells.old) }
    ensures cells { cells.new ≡ beside_cells (guarded_line own) (line_of (items table)) cells.old }
    ensures judged { IfOk result (λ v. Judged (joined (guarded_line own) (line_of (items table))) v cells.new) }
{
    // Compared here too: too few cells are refused before a table of 16 tasks is.
    if cells.len() < CELLS {
        return Err(Refusal::TooShort);
    }
    may_join(&own, &table)?;
    let both = join(own, table);
    judge(&both, cells)
}

#[cfg(test)]
mod tests {
    use super::judge_with;
    use crate::guarded::Guarded;
    use line::limits::MODES;
    use response::{CELLS, Verdict};
    use sporadic::Sporadic;
    use std::test::Fail;
    use table::make::{Make, Task};
    use table::table::Table;

    // The guarded task, of cost 4 and period 6, has nothing above it: its bound is 4. Task 7, of
    // cost 2, needs 2 + 4 × (w ÷ 6 + 1) ticks in a window of w: 6 in windows below 6, and 10 in
    // windows from 6 to 11. So its bound is 10, which is its deadline.
    #[test]
    fn guarded_above_task_7(rt: HostRuntime) -> Result<(), Fail> {
        let mut table = Table::new(rt.alloc())?;
        let make = Make::Sporadic(Sporadic::new(2, 10, 10)?);
        assert!(rt; table.insert(0, Task { number: 7, make }).is_ok());
        let mut cells = [1; CELLS];
        let verdict = judge_with(table, Guarded::new(4, 6, 6)?, &mut cells)?;
        assert!(rt; verdict == Verdict::Fits);
        assert!(rt; cells[0] == 4 && cells[1] == 0 && cells[MODES] == 10);
        Ok(())
    }
}
