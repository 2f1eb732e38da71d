//! The names of the calls, and of what a call lends.
ghost use Rattle.std.specs.Prelude.{◌≡◌};
ghost use Rattle.std.specs.Result.{result_ok};
ghost use Rattle.calls.specs.Names.{length_named, memory_named};
ghost use Rattle.calls.specs.Kinds.{edit_named, drafting_named, running_named, question_named, other_named};
ghost use Rattle.calls.specs.Lists.{call_named};

use crate::call::{Call, Drafting, Edit, Length, Memory, NoCall, Question, Running};

// A function for each kind: the proof of one match over all of them takes several times as long as theirs together.

/// The edit of that name and those numbers.
fn edit_named(name: &[u8], numbers: &[u32]) -> Option<Edit>
    ensures { result ≡ edit_named name.now numbers.now }
{
    match (name, numbers) {
        (b"put", &[number, place, cost, period, deadline]) => Some(Edit::Put {
            number,
            place,
            cost,
            period,
            deadline,
        }),
        (b"take", &[number]) => Some(Edit::Take { number }),
        (b"lower", &[number, mode, cost]) => Some(Edit::Lower { number, mode, cost }),
        (b"widen", &[number, from, to, gap]) => Some(Edit::Widen {
            number,
            from,
            to,
            gap,
        }),
        (b"cut", &[number, from, to]) => Some(Edit::Cut { number, from, to }),
        _ => None,
    }
}

/// The call of a draft of that name and those numbers.
fn drafting_named(name: &[u8], numbers: &[u32]) -> Option<Drafting>
    ensures { result ≡ drafting_named name.now numbers.now }
{
    match (name, numbers) {
        (b"open", &[number, place]) => Some(Drafting::Open { number, place }),
        (b"mode", &[cost, deadline]) => Some(Drafting::Mode { cost, deadline }),
        (b"link", &[from, to, gap]) => Some(Drafting::Link { from, to, gap }),
        (b"close", []) => Some(Drafting::Close),
        (b"abandon", []) => Some(Drafting::Abandon),
        _ => None,
    }
}

/// The call of a run of that name and those numbers.
fn running_named(name: &[u8], numbers: &[u32]) -> Option<Running>
    ensures { result ≡ running_named name.now numbers.now }
{
    match (name, numbers) {
        (b"begin", []) => Some(Running::Begin),
        (b"release", &[number, mode, cost]) => Some(Running::Release { number, mode, cost }),
        (b"advance", &[ticks]) => Some(Running::Advance { ticks }),
        (b"worst", &[number, mode]) => Some(Running::Worst { number, mode }),
        (b"stop", []) => Some(Running::Stop),
        _ => None,
    }
}

/// The question of that name and those numbers.
fn question_named(name: &[u8], numbers: &[u32]) -> Option<Question>
    ensures { result ≡ question_named name.now numbers.now }
{
    match (name, numbers) {
        (b"verdict", []) => Some(Question::Verdict),
        (b"bound", &[number, mode]) => Some(Question::Bound { number, mode }),
        (b"most", &[place, window]) => Some(Question::Most { place, window }),
        (b"sheet", []) => Some(Question::Sheet),
        (b"output", []) => Some(Question::Output),
        _ => None,
    }
}

/// Any other call of that name and those numbers.
fn other_named(name: &[u8], numbers: &[u32]) -> Option<Call>
    ensures { result ≡ other_named name.now numbers.now }
{
    let call = match (name, numbers) {
        (b"bench", &[number]) => Call::Bench(number),
        (b"keep", &[number]) => Call::Keep(number),
        (b"load", &[length]) => Call::Load(length),
        (b"save", []) => Call::Save,
        (b"judge", []) => Call::Judge,
        (b"show", &[number, window]) => Call::Show { number, window },
        (b"walk", &[number, window]) => Call::Walk { number, window },
        (b"whole", []) => Call::Whole,
        _ => return None,
    };
    Some(call)
}

/// The call of that name and those numbers.
pub fn named(name: &[u8], numbers: &[u32]) -> Option<Call>
    ensures { result ≡ call_named name.now numbers.now }
{
    if let Some(edit) = edit_named(name, numbers) {
        return Some(Call::Edit(edit));
    }
    if let Some(call) = drafting_named(name, numbers) {
        return Some(Call::Drafting(call));
    }
    if let Some(call) = running_named(name, numbers) {
        return Some(Call::Running(call));
    }
    if let Some(question) = question_named(name, numbers) {
        return Some(Call::Ask(question));
    }
    other_named(name, numbers)
}

impl TryFrom<&[u8]> for Length {
    type Error = NoCall;

    ghost try_from_gives = { λ name r. result_ok r ≡ length_named name.now };

    fn try_from(name: &[u8]) -> Result<Length, NoCall> {
        match name {
            b"short" => Ok(Length::Short),
            b"fit" => Ok(Length::Fit),
            b"long" => Ok(Length::Long),
            _ => Err(NoCall),
        }
    }
}

impl TryFrom<&[u8]> for Memory {
    type Error = NoCall;

    ghost try_from_gives = { λ name r. result_ok r ≡ memory_named name.now };

    fn try_from(name: &[u8]) -> Result<Memory, NoCall> {
        match name {
            b"sheet" => Ok(Memory::Sheet),
            b"list" => Ok(Memory::List),
            b"output" => Ok(Memory::Output),
            _ => Err(NoCall),
        }
    }
}
