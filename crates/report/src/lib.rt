//! What the judging program writes of a text: the bound of every mode and the verdict, or the refusal.
#![tactic(auto)]

ghost use Rattle.std.specs.Prelude.{◌≡◌, ◌≢◌, ◌++◌, length, string_bytes, MatchResult, IfOk, OnOk};
ghost use Rattle.line.specs.declared.refusal.Refusal.TheVariants.{NoMemory};
ghost use Rattle.bench.specs.State.{state, after_judge};
ghost use Rattle.report.specs.Words.{fault_text, bound_shown, task_text, tasks_text, judged_text, ReportDone};

use bench::bench::Bench;
use faults::LoadFault;
use history::new_bench;
use line::Line;
use line::limits::SHEET;
use line::refusal::Refusal;
use std::alloc::{AllocError, Global};
use store::load::load;

/// The number of the bench that a report is made on.
const BENCH: u32 = 1;

/// The bound that the bench shows of a mode, and 0 where it shows none.
fn bound_shown(bench: &Bench, task: u32, mode: usize) -> u32
    ensures { result ≡ bound_shown (state bench.now) task mode }
{
    // A line is written for each mode, and 0 is what it shows of one without a bound. The console's question goes by
    // place; what the two share is the one call.
    bench.bound(task, mode).unwrap_or(0)
}

/// Adds a line for each mode of the task at a place: the task's number, the mode and its bound.
fn add_modes(out: &mut String, bench: &Bench, place: usize) -> Result<(), AllocError>
    ensures { OnOk result (string_bytes out.new ≡ string_bytes out.old ++ task_text (state bench.now) place) }
{
    let task = bench.table().number_at(place);
    for mode in 0..bench.table().modes(place) {
        let bound = bound_shown(bench, task, mode);
        writeln!(out, "{task} {mode} {bound}")?;
    }
    Ok(())
}

/// Adds the lines of every task.
fn add_tasks(out: &mut String, bench: &Bench) -> Result<(), AllocError>
    ensures { OnOk result (string_bytes out.new ≡ string_bytes out.old ++ tasks_text (state bench.now) (length (state bench.now).desk.tasks)) }
{
    for place in 0..bench.table().len() {
        add_modes(out, bench, place)?;
    }
    Ok(())
}

/// The bounds of a judged table, by place and then by mode, and the verdict.
fn judged(heap: Global, bench: &mut Bench) -> Result<String, AllocError>
    ensures text { IfOk result (λ s. string_bytes s ≡ judged_text (after_judge (state bench.old))) }
    ensures left { state bench.new ≡ after_judge (state bench.old) }
{
    let verdict = bench.judge();
    let mut out = String::new(heap);
    add_tasks(&mut out, bench)?;
    writeln!(out, "{verdict}")?;
    Ok(out)
}

/// Why a text is refused. Want of memory is not reported.
fn refused(heap: Global, fault: LoadFault) -> Result<String, Refusal>
    ensures { MatchResult result (λ s. (fault.refusal ≢ NoMemory) × (string_bytes s ≡ fault_text fault)) (λ e. e ≡ NoMemory) }
{
    if fault.refusal == Refusal::NoMemory {
        return Err(Refusal::NoMemory);
    }
    Ok(format!(in heap; "{fault}\n")?)
}

/// What is to be written of a table's text. The only refusal is want of memory.
pub fn report(heap: Global, text: &[u8]) -> Result<String, Refusal>
    ensures { ReportDone text.now result }
{
    let mut bench = new_bench(BENCH, heap)?;
    let mut sheet = vec![in heap; 0; SHEET]?;
    match load(&mut bench, text, &mut sheet) {
        Ok(()) => Ok(judged(heap, &mut bench)?),
        Err(fault) => refused(heap, fault),
    }
}
