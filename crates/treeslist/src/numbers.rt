// Sample counts, strata and draws.
ghost use Rattle.std.specs.Prelude.{◌≤◌, IfOk};

use crate::columns::clean;
use anyhow::bail;
use column::kinds::Kind;
use column::rows::words_for;
use column::views::{MAX_ROWS, View};
use node::leaves::read_mask;
use sample::draws::Draws;
use sample::samples::sample;
use sample::strata::{SAMPLE_SIZE, sample_count, stratum};
use std::alloc::Global;
use std::fmt::Write;

fn read_rows(text: &str) -> anyhow::Result<usize>
    ensures { IfOk result (λ n. n ≤ 131072) }
{
    let rows = text.parse::<usize>()?;
    if rows > MAX_ROWS {
        bail!("no column has so many rows");
    }
    Ok(rows)
}

pub fn count_answer(heap: Global, asked: &str) -> anyhow::Result<String> {
    let count = sample_count(read_rows(asked)?);
    Ok(format!(in heap; "{count}")?)
}

pub fn strata_answer(heap: Global, asked: &str) -> anyhow::Result<String> {
    let Some((rows, count)) = asked.split_once(' ') else {
        bail!("rows and a count name strata");
    };
    let rows = read_rows(rows)?;
    let count = count.parse::<usize>()?;
    let mut text = String::new(heap);
    for i in 0..count {
        let (start, stop) = stratum(rows, count, i);
        if i > 0 {
            text.push(' ')?;
        }
        write!(text, "{start}-{stop}")?;
    }
    Ok(text)
}

// Where the sample's blocks begin: that of a column whose cell at row r is r.
pub fn draws_answer<D: Draws + Drop>(heap: Global, asked: &str) -> anyhow::Result<String> {
    let rows = read_rows(asked)?;
    let cells: Vec<u64> = (0..rows as u64).collect(heap)?;
    let mut words = vec![in heap; 0; words_for(rows)]?;
    read_mask(0, &[], rows, &mut words);
    let Ok(view) = View::new(u8::from(Kind::U32), &cells, &words) else {
        bail!("a column of row numbers is refused");
    };
    let mut places = vec![in heap; 0; view.rows()]?;
    let array = clean(view, &mut places);
    let rows = array.view.rows();
    let mut sampled = vec![in heap; 0; rows]?;
    let mut present = vec![in heap; 0; words_for(rows)]?;
    match sample::<D>(array, &mut sampled, &mut present) {
        Some(drawn) => firsts(heap, &sampled, drawn / SAMPLE_SIZE),
        None => Ok(String::from_str(heap, "whole")?),
    }
}

// The first cell of each of so many blocks.
fn firsts(heap: Global, cells: &[u64], count: usize) -> anyhow::Result<String> {
    let mut text = String::new(heap);
    for (i, block) in cells.chunks(SAMPLE_SIZE).take(count).enumerate() {
        let first = block.first().copied().unwrap_or(0);
        if i > 0 {
            text.push(' ')?;
        }
        write!(text, "{first}")?;
    }
    Ok(text)
}
