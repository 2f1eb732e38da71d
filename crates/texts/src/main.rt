//! Writes the report of each text on standard input. A text comes as a line with its length in
//! bytes, the bytes, and a line feed.
#![tactic(auto)]

mod input;

use anyhow::anyhow;
use input::Texts;
use report::report;
use std::io::Read;

fn run(rt: &HostRuntime) -> anyhow::Result<()> {
    let mut input = Vec::new(rt.alloc());
    rt.stdin().read_to_end(&mut input)?;
    for text in Texts::new(&input) {
        let out = report(rt.alloc(), text).map_err(|_| anyhow!("no memory"))?;
        print!(rt; "{out}")?;
    }
    Ok(())
}

fn main(rt: HostRuntime) -> anyhow::Result<()> {
    run(&rt)
}
