//! Reads a task table's text on standard input, and writes the bound of every mode and the verdict.
#![tactic(auto)]

use anyhow::anyhow;
use report::report;
use std::io::Read;

fn run(rt: &HostRuntime) -> anyhow::Result<()> {
    let mut text = Vec::new(rt.alloc());
    rt.stdin().read_to_end(&mut text)?;
    let out = report(rt.alloc(), &text).map_err(|_| anyhow!("no memory"))?;
    print!(rt; "{out}")?;
    Ok(())
}

fn main(rt: HostRuntime) -> anyhow::Result<()> {
    run(&rt)
}
