// Reads a column from each line of standard input, and prints a line of its statistics.
#![tactic(auto)]

mod texts;

use crate::texts::answer;
use std::io::{BufRead, BufReader};

fn run(rt: &HostRuntime) -> anyhow::Result<()> {
    let heap = rt.alloc();
    println!(rt; "line,kind,rows,nulls,values,average,min,max,distinct,commonest,times")?;
    for (i, line) in BufReader::new(heap, rt.stdin())?.lines(heap).enumerate() {
        let text = line?;
        let row = answer(heap, i as u64 + 1, text.as_bytes())?;
        println!(rt; "{row}")?;
    }
    Ok(())
}

fn main(rt: HostRuntime) -> anyhow::Result<()> {
    run(&rt)
}
