//! The calls that a list may have.

/// An edit of the table.
#[derive(Clone, Copy)]
pub enum Edit {
    Put {
        number: u32,
        place: u32,
        cost: u32,
        period: u32,
        deadline: u32,
    },
    Take {
        number: u32,
    },
    Lower {
        number: u32,
        mode: u32,
        cost: u32,
    },
    Widen {
        number: u32,
        from: u32,
        to: u32,
        gap: u32,
    },
    Cut {
        number: u32,
        from: u32,
        to: u32,
    },
}

/// A call that opens, changes or ends a draft.
#[derive(Clone, Copy)]
pub enum Drafting {
    Open { number: u32, place: u32 },
    Mode { cost: u32, deadline: u32 },
    Link { from: u32, to: u32, gap: u32 },
    Close,
    Abandon,
}

/// A call that begins, plays or ends a run.
#[derive(Clone, Copy)]
pub enum Running {
    Begin,
    Release { number: u32, mode: u32, cost: u32 },
    Advance { ticks: u32 },
    Worst { number: u32, mode: u32 },
    Stop,
}

/// A call that only asks.
#[derive(Clone, Copy)]
pub enum Question {
    Verdict,
    Bound { number: u32, mode: u32 },
    Most { place: u32, window: u32 },
    /// A digest of the work sheet.
    Sheet,
    /// A digest of the output.
    Output,
}

/// Memory that is lent to the bench.
#[derive(Clone, Copy)]
pub enum Memory {
    Sheet,
    List,
    Output,
}

/// How much of it is lent: one cell too few, just enough, or more than is asked for.
#[derive(Clone, Copy)]
pub enum Length {
    Short,
    Fit,
    Long,
}

/// A call, by its name and numbers.
#[derive(Clone, Copy)]
pub enum Call {
    /// Another bench of that number; draft and run in hand are ended on the one before.
    Bench(u32),
    /// Another bench of that number; draft and run in hand stay there, as a stranger's.
    Keep(u32),
    Edit(Edit),
    Drafting(Drafting),
    Running(Running),
    Ask(Question),
    /// A text of that many bytes, which follow the line.
    Load(u32),
    Save,
    Judge,
    /// A walk, as the list of its modes.
    Show { number: u32, window: u32 },
    /// A walk, as its work and whether it is one that fits.
    Walk { number: u32, window: u32 },
    Lend(Memory, Length),
    /// All lent memory as it was at first.
    Whole,
}

/// What a line of a list is.
#[derive(Clone, Copy)]
pub enum Entry {
    Call(Call),
    /// No call.
    Unknown,
    /// An empty line, or one that begins with `#`: it is passed over, and nothing answers it.
    Remark,
}

/// A line that is no call, or a word that names nothing to lend.
#[derive(Clone, Copy, Debug, PartialEq, Eq)]
pub struct NoCall;
