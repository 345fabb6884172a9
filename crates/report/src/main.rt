// Reads a book from standard input and prints its report.
#![tactic(auto)]

use reports::report;
use std::io::Read;

fn run(rt: &HostRuntime) -> anyhow::Result<()> {
    let mut text = Vec::new(rt.alloc());
    rt.stdin().read_to_end(&mut text)?;
    let answer = report(text.as_slice());
    print!(rt; "{answer}")?;
    Ok(())
}

fn main(rt: HostRuntime) -> anyhow::Result<()> {
    run(&rt)
}
