// Columns as rows of text: one for each node that a column was bound to.
#![tactic(auto)]

ghost use Rattle.std.specs.Prelude.{◌≡◌, ℕ, ◌≤◌, List, ◌++◌, IfOk, OnOk, string_bytes};
ghost use Rattle.node.specs.Nodes.{Node, flat, height, Fit};
ghost use Rattle.tree.specs.Trees.{preorder, walked};
ghost use Rattle.listing.specs.Rows.{row_text, rows_text};

use std::alloc::{AllocError, Global};
use tree::{Entry, entries};

// A row for each node of the one at the front of the bytes, in the order of their bytes, each with the column's number in front.
pub fn rows_text(
    heap: Global,
    number: usize,
    bytes: &[u8],
    levels: u32,
) -> Result<String, AllocError>
    ensures value { IfOk result (λ s. string_bytes s ≡ rows_text number (walked levels 0 0 bytes.now)) }
    ensures tree { (n : Node) (rest : List ℕ) → Fit n → height n ≤ levels → bytes.now ≡ flat n ++ rest → IfOk result (λ s. string_bytes s ≡ rows_text number (preorder 0 0 n)) }
{
    let nodes = entries(heap, bytes, levels)?;
    let mut text = String::new(heap);
    put_rows(heap, number, &nodes, &mut text)?;
    Ok(text)
}

fn put_rows(
    heap: Global,
    number: usize,
    nodes: &[Entry],
    text: &mut String,
) -> Result<(), AllocError>
    ensures { OnOk result (string_bytes text.new ≡ string_bytes text.old ++ rows_text number nodes.now) }
{
    for node in nodes {
        let row = row_text(heap, number, *node)?;
        text.push_str(row.as_str())?;
    }
    Ok(())
}

fn row_text(heap: Global, number: usize, node: Entry) -> Result<String, AllocError>
    ensures { IfOk result (λ s. string_bytes s ≡ row_text number node) }
{
    format!(in heap; "{number},{node}\n")
}
