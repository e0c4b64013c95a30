// Replays a list of the original's statistics: computes each answer anew and prints how many differ.
// A line of the list is WISH|COLUMN|STATISTICS|SPAN|FACTS; docs/DIFFERENCES.md says how it was made.
#![tactic(auto)]

mod answers;

use crate::answers::Answer;
use anyhow::bail;
use column::views::View;
use lines::columns::LineColumn;
use lines::reads::read_line;
use stats::integer::IntegerStats;
use stats::options::GenerateStatsOptions;
use std::alloc::{AllocError, Global};
use std::io::{BufRead, BufReader};

// The column's cells, with `cell` under every blank.
fn hidden(heap: Global, column: &LineColumn, cell: u64) -> Result<Vec<u64>, AllocError> {
    let view = column.view();
    view.cells
        .iter()
        .enumerate()
        .map(|(row, here)| if view.is_present(row) { *here } else { cell })
        .collect(heap)
}

// The answer for a column with these cells, computed in lent memory of the stated size.
fn replay(heap: Global, column: &LineColumn, cells: &[u64], wish: bool) -> anyhow::Result<String> {
    let Ok(view) = View::new(u8::from(column.kind), cells, &column.words) else {
        bail!("a column of the list is refused");
    };
    let mut table: Vec<u64> = vec![in heap; 0xA5A5; 2 * view.rows() + 64]?;
    let opts = GenerateStatsOptions {
        count_distinct_values: wish,
    };
    let stats = IntegerStats::generate_opts(view, opts, &mut table);
    let answer = Answer {
        kind: view.kind,
        stats,
        values: stats.distinct_values(&table),
        counts: stats.distinct_counts(&table),
    };
    Ok(format!(in heap; "{answer}")?)
}

// Whether both answers, with zeros and with other cells under the blanks, are the one in the list.
fn agrees(heap: Global, line: &str) -> anyhow::Result<bool> {
    let mut parts = line.splitn(3, '|');
    let (Some(wish), Some(text), Some(theirs)) = (parts.next(), parts.next(), parts.next()) else {
        bail!("a line of the list has too few parts");
    };
    let Ok(column) = read_line(heap, text.as_bytes()) else {
        bail!("a column of the list is unreadable");
    };
    let wish = wish == "1";
    let zeros = replay(heap, &column, &column.cells, wish)?;
    let cells = hidden(heap, &column, 0xDEAD_BEEF_0BAD_F00D)?;
    let others = replay(heap, &column, &cells, wish)?;
    Ok(zeros.as_str() == theirs && others.as_str() == theirs)
}

fn run(rt: &HostRuntime) -> anyhow::Result<()> {
    let heap = rt.alloc();
    let mut answers: u32 = 0;
    let mut differences: u32 = 0;
    // Counted here, since the number of lines is printed after the last one.
    for line in BufReader::new(heap, rt.stdin())?.lines(heap) {
        let line = line?;
        answers = answers.saturating_add(1);
        if !agrees(heap, line.as_str())? {
            differences = differences.saturating_add(1);
            println!(rt; "differs,{answers}")?;
        }
    }
    println!(rt; "{answers} answers of the original, {differences} differences")?;
    Ok(())
}

fn main(rt: HostRuntime) -> anyhow::Result<()> {
    run(&rt)
}
