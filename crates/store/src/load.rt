//! Loading a text onto a bench.
ghost use Rattle.std.specs.Prelude.{◌≡◌, ◌≤◌, length, MatchResult};
ghost use Rattle.line.specs.declared.refusal.Refusal.TheVariants.{NoMemory};
ghost use Rattle.table.specs.Tables.{items};
ghost use Rattle.bench.specs.State.{state};
ghost use Rattle.line.specs.declared.refusal.Refusal.TheVariants.{Trailer};
ghost use Rattle.text.specs.Readers.{at};
ghost use Rattle.faults.specs.Faults.{in_text, placed};
ghost use Rattle.loader.specs.Loaders.{progress};
ghost use Rattle.store.specs.Loads.{load_answer, LastDone, ReadDone, ReadOver, LoadDone, ReadsOnce, Refuses};

use bench::bench::Bench;
use faults::{LineFault, LoadFault, TableFault};
use line::limits::check_sheet;
use line::refusal::Refusal;
use loader::Loader;
use std::alloc::Global;
use table::table::Table;
use text::reader::Reader;

/// The most bytes of a text.
pub const TEXT: usize = 65535;

/// The trailer is missing, or followed by anything, where the reader stands.
fn no_trailer(reader: &Reader<'_>) -> LoadFault
    ensures { result ≡ placed (in_text Trailer) (at reader.now).line (at reader.now).pos }
{
    LineFault::text(Refusal::Trailer).at(reader.line(), reader.place())
}

/// After a right trailer nothing may follow.
fn last(reader: &Reader<'_>, loader: Loader) -> Result<Table, LoadFault>
    ensures { LastDone (at reader.now) (progress loader).desk.tasks result }
{
    if !reader.is_done() {
        return Err(no_trailer(reader));
    }
    Ok(loader.into_table())
}

// The work sheet is lent and its length asked for: a struct that held it would have to say that it is still the caller's.

/// The table that a text spells. The sheet is as its closes leave it.
fn read(heap: Global, text: &[u8], sheet: &mut [u32]) -> Result<Table, LoadFault>
    requires { 16016 ≤ length sheet.old }
    ensures { ReadDone text.now sheet.old result sheet.new }
{
    let mut reader = Reader::new(text);
    let mut loader = Loader::new(heap)?;
    while !reader.is_done() {
        let line = reader.line();
        let place = reader.place();
        let is_end = loader
            .next(&mut reader, sheet)
            .map_err(|fault| fault.at(line, place))?;
        if is_end {
            return last(&reader, loader);
        }
    }
    Err(no_trailer(&reader))
}

/// Refuses what may not be loaded, before any line is read.
fn may_load(bench: &Bench, bytes: usize, cells: usize) -> Result<(), TableFault>
    ensures { Refuses (load_answer (state bench.now) bytes cells) result }
{
    if bytes > TEXT {
        return Err(TableFault(Refusal::OutOfRange));
    }
    check_sheet(cells)?;
    bench.may_install()?;
    Ok(())
}

/// A copy of the sheet, to work on until the whole text is known to be right.
fn copy_of(heap: Global, sheet: &[u32]) -> Result<Vec<u32>, TableFault>
    ensures { MatchResult result (λ v. v.items ≡ sheet.now) (λ e. e.0 ≡ NoMemory) }
{
    Ok(Vec::from_slice(heap, sheet).map_err(Refusal::from)?)
}

/// The table that a text spells, and a sheet as its closes leave it.
fn read_over(heap: Global, text: &[u8], sheet: Vec<u32>) -> Result<(Table, Vec<u32>), LoadFault>
    requires { 16016 ≤ length sheet.items }
    ensures { ReadOver text.now sheet.items result }
{
    let mut work = sheet;
    let table = read(heap, text, &mut work)?;
    Ok((table, work))
}

/// Loads a table's text onto a bench that has no task.
///
/// Where a line is refused, bench and sheet are as they were, whatever lines were read before it.
/// A text has at most one reading: the tasks that it spells, or what it is refused for and where.
pub fn load(bench: &mut Bench, text: &[u8], sheet: &mut [u32]) -> Result<(), LoadFault>
    ensures done { LoadDone (state bench.old) text.now sheet.old result (state bench.new) sheet.new }
    ensures once { ReadsOnce text.now }
{
    may_load(bench, text.len(), sheet.len())?;
    let copy = copy_of(bench.heap(), sheet)?;
    let (table, filled) = read_over(bench.heap(), text, copy)?;
    let _ = bench.install(table);
    sheet.copy_from_slice(&filled);
    Ok(())
}
