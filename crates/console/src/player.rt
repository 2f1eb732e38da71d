//! A bench with the memory that is lent to it, and the calls on them.
use crate::answer::{Answer, Walk};
use crate::lent::{Lent, digest};
use crate::seen::Seen;
use crate::walk::{is_fitting, is_kept, shown_line, work_of};
use bench::bench::Bench;
use bench::ticket::{Draft, Run};
use calls::call::{Call, Drafting, Edit, Length, Memory, Question, Running};
use history::new_bench;
use line::Line;
use line::refusal::Refusal;
use save::save::save;
use std::alloc::{AllocError, Global};
use store::load::load;

mod drafts;
mod runs;

/// The number of the bench before any is made.
const BENCH: u32 = 1;

/// A bench, the draft and the run in hand, the memory that is lent to the bench, and what stood after the last
/// accepted call.
pub struct Player {
    bench: Bench,
    draft: Option<Draft>,
    run: Option<Run>,
    lent: Lent,
    seen: Seen,
    heap: Global,
}

// A call's numbers have 32 bits, which `as usize` widens where the bench takes a place or a mode.

impl Player {
    pub(crate) fn new(heap: Global) -> Result<Player, Refusal> {
        let bench = new_bench(BENCH, heap)?;
        let lent = Lent::new(heap)?;
        let seen = Seen::new(heap, &bench, None, &lent)?;
        Ok(Player {
            bench,
            draft: None,
            run: None,
            lent,
            seen,
            heap,
        })
    }

    /// Ends draft and run in hand, as far as they are there, and the player.
    pub(crate) fn finish(self) {
        let Player {
            mut bench,
            draft,
            run,
            lent: _,
            seen: _,
            heap: _,
        } = self;
        if let Some(draft) = draft {
            bench.abandon(draft);
        }
        if let Some(run) = run {
            bench.stop(run);
        }
    }

    /// Another bench of that number in place of this one.
    fn renew(&mut self, number: u32) -> Result<(), Refusal> {
        self.bench = new_bench(number, self.heap)?;
        Ok(())
    }

    /// A task put in or taken out, or a change of one where it stands.
    fn edit(&mut self, edit: Edit) -> Result<(), Refusal> {
        match edit {
            Edit::Put {
                number,
                place,
                cost,
                period,
                deadline,
            } => self
                .bench
                .put(number, place as usize, cost, period, deadline),
            Edit::Take { number } => self.bench.take(number),
            Edit::Lower { number, mode, cost } => {
                self.bench
                    .lower(number, mode as usize, cost, &mut self.lent.sheet)
            }
            Edit::Widen {
                number,
                from,
                to,
                gap,
            } => self.bench.widen(
                number,
                from as usize,
                to as usize,
                gap,
                &mut self.lent.sheet,
            ),
            Edit::Cut { number, from, to } => {
                self.bench
                    .cut(number, from as usize, to as usize, &mut self.lent.sheet)
            }
        }
    }

    fn bound(&self, number: u32, mode: usize) -> Answer {
        self.bench
            .bound(number, mode)
            .map_or_else(Answer::Refused, Answer::Number)
    }

    fn ask(&self, question: Question) -> Answer {
        match question {
            Question::Verdict => Answer::Verdict(self.bench.verdict()),
            Question::Bound { number, mode } => self.bound(number, mode as usize),
            Question::Most { place, window } => {
                Answer::Number(self.bench.table().most(place as usize, window))
            }
            Question::Sheet => Answer::Number(digest(&self.lent.sheet)),
            Question::Output => Answer::Number(digest(&self.lent.output)),
        }
    }

    fn load(&mut self, text: &[u8]) -> Answer {
        match load(&mut self.bench, text, &mut self.lent.sheet) {
            Ok(()) => Answer::Done,
            Err(fault) => fault.into(),
        }
    }

    fn save(&mut self) -> Answer {
        save(&self.bench, &mut self.lent.output).map_or_else(Answer::Refused, Answer::Saved)
    }

    /// What is to be told of a walk of so many modes that stands in the list.
    fn written_walk(&self, number: u32, window: u32, len: usize) -> Walk {
        let list: &[u8] = &self.lent.list;
        let table = self.bench.table();
        match table.place_of(number) {
            Some(place) if len <= list.len() => {
                let walk = &list[..len];
                let work = work_of(table, place, walk);
                if is_fitting(table, place, walk, window) && is_kept(list, self.seen.list(), len) {
                    Walk::Fits(work)
                } else {
                    Walk::Fails(work)
                }
            }
            _ => Walk::Fails(0),
        }
    }

    /// Has a walk written into the list, and answers its length.
    fn show(&mut self, number: u32, window: u32) -> Result<usize, Refusal> {
        self.bench
            .show(number, window, &mut self.lent.sheet, &mut self.lent.list)
    }

    /// Has a walk written into the list, and answers what is to be told of it.
    fn walk(&mut self, number: u32, window: u32) -> Answer {
        match self.show(number, window) {
            Ok(len) => Answer::Walk(self.written_walk(number, window, len)),
            Err(refusal) => refusal.into(),
        }
    }

    /// Makes one of the memories anew at a length.
    fn lend(&mut self, memory: Memory, length: Length) -> Result<(), Refusal> {
        let text = self.seen.text_len();
        self.lent.lend(self.heap, memory, length, text)?;
        Ok(())
    }

    /// All lent memory as it was at first.
    fn restore(&mut self) -> Result<(), Refusal> {
        self.lent = Lent::new(self.heap)?;
        Ok(())
    }

    /// Plays a call. A load brings its text.
    pub(crate) fn play(&mut self, call: Call, text: &[u8]) -> Answer {
        match call {
            Call::Bench(number) => {
                self.abandon();
                self.stop();
                self.renew(number).into()
            }
            Call::Keep(number) => self.renew(number).into(),
            Call::Edit(edit) => self.edit(edit).into(),
            Call::Drafting(call) => self.drafting(call),
            Call::Running(call) => self.running(call),
            Call::Ask(question) => self.ask(question),
            Call::Load(_) => self.load(text),
            Call::Save => self.save(),
            Call::Judge => Answer::Verdict(Some(self.bench.judge())),
            Call::Show { number, window } => self
                .show(number, window)
                .map_or_else(Answer::Refused, Answer::Shown),
            Call::Walk { number, window } => self.walk(number, window),
            Call::Lend(memory, length) => self.lend(memory, length).into(),
            Call::Whole => self.restore().into(),
        }
    }

    /// Keeps the longest times after an accepted call of the run, which changes nothing else.
    fn look_at_run(&mut self) {
        self.seen.look_at_run(&self.bench, self.run.as_ref());
    }

    /// Keeps what stands after an accepted call.
    fn look(&mut self) -> Result<(), Refusal> {
        self.seen = Seen::new(self.heap, &self.bench, self.run.as_ref(), &self.lent)?;
        Ok(())
    }

    /// What is written of an answer, and a look at what the call left.
    pub(crate) fn tell(&mut self, call: Option<Call>, answer: Answer) -> Result<Vec<u8>, Refusal> {
        let changed = match answer.refusal() {
            Some(Refusal::NoMemory) => return Err(Refusal::NoMemory),
            Some(_) => !self
                .seen
                .stands(self.heap, &self.bench, self.run.as_ref(), &self.lent)?,
            None => {
                if answer.is_played() && may_change(call) {
                    if matches!(call, Some(Call::Running(_))) {
                        self.look_at_run();
                    } else {
                        self.look()?;
                    }
                }
                false
            }
        };
        Ok(self.written(answer, changed)?)
    }

    /// The saved text, the shown walk, or the line of another answer, which says whether a refused call
    /// changed something.
    fn written(&self, answer: Answer, changed: bool) -> Result<Vec<u8>, AllocError> {
        let output: &[u8] = &self.lent.output;
        let list: &[u8] = &self.lent.list;
        match answer {
            Answer::Shown(len) if len <= list.len() => {
                Ok(shown_line(self.heap, &list[..len])?.into_bytes())
            }
            Answer::Saved(len) if len <= output.len() => Vec::from_slice(self.heap, &output[..len]),
            _ if changed => Ok(format!(in self.heap; "{answer} changed\n")?.into_bytes()),
            _ => Ok(format!(in self.heap; "{answer}\n")?.into_bytes()),
        }
    }
}

/// Whether a call may change what is looked at.
fn may_change(call: Option<Call>) -> bool {
    match call {
        None | Some(Call::Ask(_)) => false,
        Some(Call::Drafting(call)) => matches!(call, Drafting::Close),
        Some(Call::Running(call)) => !matches!(
            call,
            Running::Release { .. } | Running::Worst { .. }
        ),
        Some(_) => true,
    }
}
