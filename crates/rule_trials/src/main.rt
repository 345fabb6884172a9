// Reads a table of cases from standard input and prints what the rules of books and the kinds of time answer to each.
// A line `? NAME` begins a case of questions: the rules of the book below it are asked about all pairs, or, where a line
// `+` stands between two books, the union of both. A line `# NAME` begins a case of times: the two times of each line
// below it are added and compared.
#![tactic(auto)]

mod questions;
mod sums;

use lines::reader::Reader;
use questions::{ask_book, ask_both};
use std::io::{Read, Write};
use sums::add_times;

// What is done with a case's text. Where questions are asked of two books, the second begins at `second`.
#[derive(Clone, Copy)]
enum Case {
    Questions { second: Option<usize> },
    Times,
}

// Asks the questions of a case: of one book, or of two, where the second begins at `second`.
fn ask(rt: &HostRuntime, text: &[u8], second: Option<usize>) -> anyhow::Result<()> {
    match second.and_then(|at| text.split_at_checked(at)) {
        Some((book, other)) => ask_both(rt, book, other),
        None => ask_book(rt, text),
    }
}

// Answers a case, and empties the text for the next one.
fn answer(rt: &HostRuntime, case: Case, text: &mut Vec<u8>) -> anyhow::Result<()> {
    match case {
        Case::Questions { second } => ask(rt, text.as_slice(), second)?,
        Case::Times => add_times(rt, text.as_slice())?,
    }
    text.clear();
    Ok(())
}

// Prints a case's name; the answers begin on a line of their own.
fn head(rt: &HostRuntime, name: &[u8]) -> anyhow::Result<()> {
    rt.stdout().write_all(name)?;
    rt.stdout().write_all(b":\n")?;
    Ok(())
}

// The case that a line begins, if it begins one, and its name.
fn begun(line: &[u8]) -> Option<(Case, &[u8])> {
    match line {
        [b'?', b' ', name @ ..] => Some((Case::Questions { second: None }, name)),
        [b'#', b' ', name @ ..] => Some((Case::Times, name)),
        _ => None,
    }
}

fn run(rt: &HostRuntime) -> anyhow::Result<()> {
    let mut table = Vec::new(rt.alloc());
    rt.stdin().read_to_end(&mut table)?;
    let mut text = Vec::new(rt.alloc());
    let mut case = None;
    for line in Reader::new(table.as_slice()) {
        if let Some((next, name)) = begun(line.part) {
            if let Some(ended) = case {
                answer(rt, ended, &mut text)?;
            }
            head(rt, name)?;
            case = Some(next);
            continue;
        }
        match (case, line.part) {
            (Some(Case::Questions { .. }), [b'+']) => {
                let second = Some(text.len());
                case = Some(Case::Questions { second });
            }
            (_, part) => {
                text.extend_from_slice(part)?;
                text.push(b'\n')?;
            }
        }
    }
    match case {
        Some(ended) => answer(rt, ended, &mut text),
        None => Ok(()),
    }
}

fn main(rt: HostRuntime) -> anyhow::Result<()> {
    run(&rt)
}
