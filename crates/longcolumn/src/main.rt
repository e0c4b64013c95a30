// Binds a long column of prices with the house bank, prints the tree of forms, reads the column back and compares every row.
#![tactic(auto)]

mod prices;

ghost use Rattle.std.specs.Prelude.{◌≤◌};

use crate::prices::{cells_of, first_difference, words_of};
use anyhow::bail;
use banks::{House, house};
use column::kinds::Kind;
use column::rows::words_for;
use column::views::{MAX_ROWS, View};
use compressor::{compress, decompress, working_memory};
use opening::{Opening, open};
use sample::draws::Mill;
use std::alloc::Global;
use tree::entries;

const LEVELS: usize = 4;

// Bytes for the heads of as many nodes as four levels can make.
const HEADS: usize = 16 * 31;

// Stands in the places before the column is read back.
const STALE: u64 = 0xA5A5_A5A5_A5A5_A5A5;

// Binds the column of so many rows; the bytes of its node.
fn bind(heap: Global, opening: &Opening<'_, House>, rows: usize) -> anyhow::Result<Vec<u8>>
    requires { opening.now.levels ≤ 8 }
{
    let cells = cells_of(heap, rows)?;
    let words = words_of(heap, rows)?;
    let Ok(view) = View::new(u8::from(Kind::U32), &cells, &words) else {
        bail!("the column is refused");
    };
    let rows = view.rows();
    let mut mem = vec![in heap; 0; working_memory(opening.levels, rows)]?;
    let mut bytes = vec![in heap; 0; 9 * rows + HEADS]?;
    let Ok(whole) = compress::<House, Mill>(opening, view, &mut mem, &mut bytes) else {
        bail!("the column is not bound");
    };
    bytes.truncate(whole);
    Ok(bytes)
}

fn print_tree(rt: &HostRuntime, node: &[u8]) -> anyhow::Result<()> {
    println!(rt; "level,form,kind,rows,payload,whole")?;
    for entry in entries(rt.alloc(), node, LEVELS as u32)?.iter() {
        println!(rt; "{entry}")?;
    }
    Ok(())
}

// Reads the column back into stale places and prints what came back.
fn read_back(
    rt: &HostRuntime,
    opening: &Opening<'_, House>,
    node: &[u8],
    rows: usize,
) -> anyhow::Result<()>
    requires levels { opening.now.levels ≤ 8 }
    requires rows { rows ≤ 131072 }
{
    let heap = rt.alloc();
    let mut mem = vec![in heap; 0; working_memory(opening.levels, rows)]?;
    let mut cells = vec![in heap; STALE; rows]?;
    let mut words = vec![in heap; STALE; words_for(rows)]?;
    let Some(read) = decompress(opening, node, &mut mem, &mut cells, &mut words) else {
        bail!("the column is not read back");
    };
    if read.kind != Kind::U32 || read.rows != rows {
        bail!("another column came back");
    }
    match first_difference(rows, &cells, &words) {
        None => println!(rt; "rows came back,{rows}")?,
        Some(row) => println!(rt; "differs,{row}")?,
    }
    Ok(())
}

fn run(rt: &HostRuntime, rows: usize) -> anyhow::Result<()>
    requires { rows ≤ 131072 }
{
    let bank = house();
    let Ok(opening) = open(&bank, LEVELS) else {
        bail!("the bank is refused");
    };
    let node = bind(rt.alloc(), &opening, rows)?;
    print_tree(rt, &node)?;
    read_back(rt, &opening, &node, rows)
}

fn main(rt: HostRuntime) -> anyhow::Result<()> {
    run(&rt, MAX_ROWS)
}
