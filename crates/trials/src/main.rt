// Reads a table of cases from standard input and prints what the report answers to each.
// A line `= NAME` begins a case, whose text is the lines below it, each with its line end; a line `- NAME` is the same,
// but the text's last line end is left out. A table that begins no case is one text.
#![tactic(auto)]

use lines::reader::Reader;
use reports::report;
use std::io::{Read, Write};

// How a case's text ends.
#[derive(Clone, Copy)]
enum Ending {
    LineEnd,
    NoLineEnd,
}

// Prints the report's answer to a case's text, and empties the text for the next case.
fn answer(rt: &HostRuntime, ending: Ending, text: &mut Vec<u8>) -> anyhow::Result<()> {
    if let Ending::NoLineEnd = ending {
        let _ = text.pop();
    }
    let line = report(text.as_slice());
    print!(rt; "{line}")?;
    text.clear();
    Ok(())
}

// Prints a case's name.
fn head(rt: &HostRuntime, name: &[u8]) -> anyhow::Result<()> {
    rt.stdout().write_all(name)?;
    rt.stdout().write_all(b": ")?;
    Ok(())
}

// Where a line begins a case: how its text ends, and its name.
fn begun(line: &[u8]) -> Option<(Ending, &[u8])> {
    match line {
        [b'=', b' ', name @ ..] => Some((Ending::LineEnd, name)),
        [b'-', b' ', name @ ..] => Some((Ending::NoLineEnd, name)),
        _ => None,
    }
}

fn run(rt: &HostRuntime) -> anyhow::Result<()> {
    let mut table = Vec::new(rt.alloc());
    rt.stdin().read_to_end(&mut table)?;
    let mut text = Vec::new(rt.alloc());
    let mut case = None;
    for line in Reader::new(table.as_slice()) {
        if let Some((next, name)) = begun(line.part) {
            if let Some(ending) = case {
                answer(rt, ending, &mut text)?;
            }
            head(rt, name)?;
            case = Some(next);
        } else {
            text.extend_from_slice(line.part)?;
            text.push(b'\n')?;
        }
    }
    answer(rt, case.unwrap_or(Ending::LineEnd), &mut text)
}

fn main(rt: HostRuntime) -> anyhow::Result<()> {
    run(&rt)
}
