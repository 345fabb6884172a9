use std::fmt;
use times::plain::Plain;
use times::ranked::Ranked;
use times::time::Time;

// Two ranked times are written by four numbers.
const MOST_NUMBERS: usize = 4;

// The first numbers of a line, 0 where there are fewer.
fn numbers(line: &str) -> anyhow::Result<[u32; MOST_NUMBERS]> {
    let mut found = [0; MOST_NUMBERS];
    for (number, word) in found.iter_mut().zip(line.split(' ')) {
        *number = word.parse::<u32>()?;
    }
    Ok(found)
}

// How two times compare: `<`, `=` or `>`, and `!` where neither is not after the other.
fn sign<T: Time>(first: T, second: T) -> &'static str {
    match (first.not_after(second), second.not_after(first)) {
        (true, true) => "=",
        (true, false) => "<",
        (false, true) => ">",
        (false, false) => "!",
    }
}

// Prints the sum of two times, and how they compare.
fn print_sum<T: Time + fmt::Display>(rt: &HostRuntime, first: T, second: T) -> anyhow::Result<()> {
    let sum = first.plus(second);
    let order = sign(first, second);
    println!(rt; "{sum} {order}")?;
    Ok(())
}

// Two plain times, by their seconds.
fn add_plain(rt: &HostRuntime, line: &str) -> anyhow::Result<()> {
    let [first, second, ..] = numbers(line)?;
    print_sum(rt, Plain::make(first, 0), Plain::make(second, 0))
}

// Two ranked times, by seconds and weight of each.
fn add_ranked(rt: &HostRuntime, line: &str) -> anyhow::Result<()> {
    let [first, first_weight, second, second_weight] = numbers(line)?;
    let first = Ranked::make(first, u16::try_from(first_weight)?);
    let second = Ranked::make(second, u16::try_from(second_weight)?);
    print_sum(rt, first, second)
}

// Adds and compares two times for each line: `plain` with two numbers, or `ranked` with seconds and weight twice.
pub(crate) fn add_times(rt: &HostRuntime, text: &[u8]) -> anyhow::Result<()> {
    for line in std::str::from_utf8(text)?.lines() {
        if let Some(rest) = line.strip_prefix("plain ") {
            add_plain(rt, rest)?;
        } else if let Some(rest) = line.strip_prefix("ranked ") {
            add_ranked(rt, rest)?;
        } else {
            println!(rt; "!")?;
        }
    }
    Ok(())
}
