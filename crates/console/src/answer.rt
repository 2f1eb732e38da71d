//! What is answered to a call, and how it is written.
ghost use Rattle.std.specs.Prelude.{◌≡◌, Some};
ghost use Rattle.console.specs.declared.answer.Answer.TheVariants.{Refused, Fault};
ghost use Rattle.console.specs.Words.{answer_of, refusal_in, played, walk_words, answer_words};

use bench::verdict::Verdict;
use faults::LoadFault;
use line::refusal::Refusal;
use run::{Advance, Late};
use std::fmt;

/// The work of a walk that was written, by whether it is a walk that fits the window.
#[derive(Clone, Copy)]
pub enum Walk {
    Fits(u32),
    Fails(u32),
}

/// The answer to a call.
#[derive(Clone, Copy)]
pub enum Answer {
    /// Accepted.
    Done,
    Number(u32),
    /// The verdict, if one stands.
    Verdict(Option<Verdict>),
    /// The saved text has that many bytes.
    Saved(usize),
    /// The shown walk has that many modes.
    Shown(usize),
    Walk(Walk),
    Advanced(Advance<u32>),
    Refused(Refusal),
    /// A refused load.
    Fault(LoadFault),
    /// A draft's call, and no draft is in hand.
    NoDraft,
    /// A run's call, and no run is in hand.
    NoRun,
    /// No call.
    Unknown,
}

impl From<Refusal> for Answer {
    ghost from_gives = { λ refusal r. r ≡ Refused refusal };

    fn from(refusal: Refusal) -> Answer {
        Answer::Refused(refusal)
    }
}

impl From<LoadFault> for Answer {
    ghost from_gives = { λ fault r. r ≡ Fault fault };

    fn from(fault: LoadFault) -> Answer {
        Answer::Fault(fault)
    }
}

/// The answer to a call that only accepts or refuses.
impl From<Result<(), Refusal>> for Answer {
    ghost from_gives = { λ done r. r ≡ answer_of done };

    fn from(done: Result<(), Refusal>) -> Answer {
        match done {
            Ok(()) => Answer::Done,
            Err(refusal) => refusal.into(),
        }
    }
}

impl Answer {
    /// Whether a call was played and not refused.
    pub(crate) fn is_played(self) -> bool
        ensures { result ≡ played self }
    {
        match self {
            Answer::NoDraft | Answer::NoRun | Answer::Unknown => false,
            Answer::Refused(_) | Answer::Fault(_) => false,
            _ => true,
        }
    }

    /// The refusal, if it is one.
    pub(crate) fn refusal(self) -> Option<Refusal>
        ensures { result ≡ refusal_in self }
    {
        match self {
            Answer::Refused(refusal) => Some(refusal),
            Answer::Fault(fault) => Some(fault.refusal),
            _ => None,
        }
    }
}

/// A walk: its work, and whether it is one that fits.
impl fmt::Display for Walk {
    ghost output = { λ walk. Some (walk_words walk) };

    fn fmt<W: fmt::Write>(&self, f: &mut fmt::Formatter<W>) -> fmt::Result {
        match self {
            Walk::Fits(work) => write!(f, "{work} fits"),
            Walk::Fails(work) => write!(f, "{work} fails"),
        }
    }
}

/// The line of an answer, without its line feed. A saved text and a shown walk have lines of their own.
impl fmt::Display for Answer {
    ghost output = { λ answer. Some (answer_words answer) };

    fn fmt<W: fmt::Write>(&self, f: &mut fmt::Formatter<W>) -> fmt::Result {
        match self {
            Answer::Done => f.write_str("ok"),
            Answer::Number(number) => write!(f, "{number}"),
            Answer::Verdict(None) => f.write_str("none"),
            Answer::Verdict(Some(verdict)) => write!(f, "{verdict}"),
            Answer::Saved(_) | Answer::Shown(_) => Ok(()),
            Answer::Walk(walk) => write!(f, "{walk}"),
            Answer::Advanced(Advance { ticks, late: None }) => write!(f, "{ticks}"),
            Answer::Advanced(
                Advance {
                    ticks,
                    late: Some(Late { task, mode }),
                },
            ) => write!(f, "{ticks} late {task} {mode}"),
            Answer::Refused(refusal) => {
                let number = refusal.number();
                write!(f, "refused {number}")
            }
            Answer::Fault(fault) => write!(f, "{fault}"),
            Answer::NoDraft => f.write_str("no draft"),
            Answer::NoRun => f.write_str("no run"),
            Answer::Unknown => f.write_str("unknown"),
        }
    }
}
