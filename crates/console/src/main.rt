//! Plays a list of calls on benches, read from standard input, and writes every answer on standard
//! output: a line for each call, and the text itself for a save.
//!
//! A call is a line, as `put 7 0 2 10 10` or `judge`; `load LENGTH` is followed by a text of that many
//! bytes and a line feed. Empty lines, and those that begin with `#`, are passed over. A refusal is
//! written as `refused NUMBER`, with line, byte place and layer where a load is refused, and with
//! `changed` behind it if bench, bounds, longest times or lent memory are not as they were.
#![tactic(auto)]

mod answer;
mod lent;
mod player;
mod seen;
mod walk;

use answer::Answer;
use anyhow::anyhow;
use calls::call::Entry;
use calls::list::{Calls, Step};
use player::Player;
use std::io::{BufWriter, Read, Write};

/// Plays the call of a line, if it is one, and writes its answer. A line that is passed over has none.
fn play<W: Write>(out: &mut W, player: &mut Player, step: &Step<'_>) -> anyhow::Result<()> {
    let (call, answer) = match step.entry {
        Entry::Remark => return Ok(()),
        Entry::Unknown => (None, Answer::Unknown),
        Entry::Call(call) => (Some(call), player.play(call, step.text)),
    };
    let line = player.tell(call, answer).map_err(|_| anyhow!("no memory"))?;
    out.write_all(&line)?;
    Ok(())
}

/// Plays a whole list.
fn run<W: Write>(out: &mut W, player: &mut Player, list: &[u8]) -> anyhow::Result<()> {
    for step in Calls::new(list) {
        play(out, player, &step)?;
    }
    Ok(())
}

fn start(rt: &HostRuntime) -> anyhow::Result<()> {
    let mut list = Vec::new(rt.alloc());
    rt.stdin().read_to_end(&mut list)?;
    let mut out = BufWriter::new(rt.alloc(), rt.stdout())?;
    let mut player = Player::new(rt.alloc()).map_err(|_| anyhow!("no memory"))?;
    let done = run(&mut out, &mut player, &list);
    player.finish();
    let written = out.flush();
    done?;
    written?;
    Ok(())
}

fn main(rt: HostRuntime) -> anyhow::Result<()> {
    start(&rt)
}
