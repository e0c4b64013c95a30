// Replays a list of the original's answers on bound trees: computes each anew and prints how many differ.
// docs/DIFFERENCES.md says how the list was made, tools/make_trees_list.py what stands in a line.
#![tactic(auto)]

mod columns;
mod crc;
mod numbers;
mod ratios;
mod spelled;
mod trees;

use crate::columns::Column;
use crate::spelled::spell_out;
use anyhow::bail;
use banks::{house, trial};
use lines::reads::read_line;
use sample::draws::{Centre, Mill};
use std::alloc::Global;
use std::io::{BufRead, BufReader};

// What stands under the blanks of a column besides 0.
const HIDDEN: u64 = 0xDEAD_BEEF_0BAD_F00D;

// The answer for a column, bound with a bank, a source of draws and a number of levels.
fn tree_answer(
    heap: Global,
    bank: &str,
    draws: &str,
    levels: usize,
    column: &Column,
) -> anyhow::Result<String> {
    match (bank, draws) {
        ("house", "mill") => trees::answer::<_, Mill>(heap, &house(), levels, column),
        ("house", "centre") => trees::answer::<_, Centre>(heap, &house(), levels, column),
        ("trial", "mill") => trees::answer::<_, Mill>(heap, &trial(), levels, column),
        ("trial", "centre") => trees::answer::<_, Centre>(heap, &trial(), levels, column),
        _ => bail!("no such bank or draws"),
    }
}

fn column_answer(heap: Global, command: &str, column: &Column) -> anyhow::Result<String> {
    let mut words = command.split(' ');
    match (words.next(), words.next(), words.next(), words.next()) {
        (Some("tree"), Some(bank), Some(draws), Some(levels)) => {
            tree_answer(heap, bank, draws, levels.parse::<usize>()?, column)
        }
        (Some("dict"), None, None, None) => ratios::answer(heap, column),
        _ => bail!("a line of the list has no command"),
    }
}

// Whether the answer for a column is the one in the list, with zeros and with other cells under the blanks.
fn column_agrees(heap: Global, command: &str, text: &str, theirs: &str) -> anyhow::Result<bool> {
    let text = spell_out(heap, text)?;
    let Ok(read) = read_line(heap, text.as_str().as_bytes()) else {
        bail!("a column of the list is unreadable");
    };
    let zeros = column_answer(heap, command, &Column::with_hidden(heap, &read, 0)?)?;
    let others = column_answer(heap, command, &Column::with_hidden(heap, &read, HIDDEN)?)?;
    Ok(zeros.as_str() == theirs && others.as_str() == theirs)
}

// Whether the answer that the line asks for is the one in the list.
fn agrees(heap: Global, line: &str) -> anyhow::Result<bool> {
    let mut parts = line.splitn(3, '|');
    let (Some(command), Some(asked), Some(theirs)) = (parts.next(), parts.next(), parts.next())
    else {
        bail!("a line of the list has too few parts");
    };
    let ours = match command {
        "count" => numbers::count_answer(heap, asked)?,
        "strata" => numbers::strata_answer(heap, asked)?,
        "draws mill" => numbers::draws_answer::<Mill>(heap, asked)?,
        "draws centre" => numbers::draws_answer::<Centre>(heap, asked)?,
        _ => return column_agrees(heap, command, asked, theirs),
    };
    Ok(ours.as_str() == theirs)
}

fn run(rt: &HostRuntime) -> anyhow::Result<()> {
    let heap = rt.alloc();
    let mut answers: u32 = 0;
    let mut differences: u32 = 0;
    // Counted here, since the number of lines is printed after the last one.
    for line in BufReader::new(heap, rt.stdin())?.lines(heap) {
        let line = line?;
        answers = answers.saturating_add(1);
        if !agrees(heap, line.as_str())? {
            differences = differences.saturating_add(1);
            println!(rt; "differs,{answers}")?;
        }
    }
    println!(rt; "{answers} answers of the original, {differences} differences")?;
    Ok(())
}

fn main(rt: HostRuntime) -> anyhow::Result<()> {
    run(&rt)
}
