// Bound trees.
ghost use Rattle.column.specs.Columns.{Sound};

use crate::columns::Column;
use crate::crc::crc32;
use anyhow::bail;
use bank::Bank;
use column::kinds::Kind;
use column::refusals::Refusal;
use column::rows::words_for;
use column::views::View;
use compressor::{compress, decompress, working_memory};
use node::bodies::Body;
use node::slices::{from, up_to};
use node::weights::weigh;
use opening::{MAX_LEVELS, Opening, open};
use sample::draws::Draws;
use std::alloc::Global;
use std::fmt::Write;
use tree::{Entry, entries};

// Bytes for the heads of as many nodes as eight levels can make.
const HEADS: usize = 16 * 511;

// Stands in the places before a column is read back.
const STALE: u64 = 0xA5A5_A5A5_A5A5_A5A5;

// The nodes in the order of their bytes, or which scheme refused.
pub fn answer<B: Bank, D: Draws + Drop>(
    heap: Global,
    bank: &B,
    levels: usize,
    column: &Column,
) -> anyhow::Result<String> {
    if levels > MAX_LEVELS {
        bail!("no binder has so many levels");
    }
    let Ok(view) = View::new(u8::from(column.kind), &column.cells, &column.words) else {
        bail!("a column of the list is refused");
    };
    let Ok(opening) = open(bank, levels) else {
        bail!("the bank is refused");
    };
    let rows = view.rows();
    let mut mem = vec![in heap; 0; working_memory(levels, rows)]?;
    let mut out = vec![in heap; 0; 9 * rows + HEADS]?;
    match compress::<B, D>(&opening, view, &mut mem, &mut out) {
        Ok(whole) => {
            let node = up_to(&out, whole);
            if !comes_back(heap, &opening, view, node, &mut mem)? {
                bail!("a column of the list is not read back");
            }
            nodes_text(heap, node, levels as u32)
        }
        Err(refusal) => refusal_text(heap, refusal),
    }
}

// Whether the node gives the column back, with 0 under its blanks.
fn comes_back<B: Bank>(
    heap: Global,
    opening: &Opening<'_, B>,
    view: View<'_>,
    node: &[u8],
    mem: &mut [u64],
) -> anyhow::Result<bool>
    requires sound { Sound view }
{
    let rows = view.rows();
    let mut expected = vec![in heap; 0; rows]?;
    view.clean(&mut expected);
    let mut cells = vec![in heap; STALE; rows]?;
    let mut words = vec![in heap; STALE; words_for(rows)]?;
    let Some(read) = decompress(opening, node, mem, &mut cells, &mut words) else {
        return Ok(false);
    };
    let same_cells = cells.as_slice() == expected.as_slice();
    let same_words = words.as_slice() == view.words;
    Ok(read.kind == view.kind && read.rows == rows && same_cells && same_words)
}

fn refusal_text(heap: Global, refusal: Refusal) -> anyhow::Result<String> {
    let scheme = refusal.scheme();
    let row = refusal.row();
    let level = refusal.level();
    let sample = u8::from(refusal.sample());
    Ok(format!(in heap; "refused {scheme} row {row} level {level} sample {sample}")?)
}

fn nodes_text(heap: Global, bytes: &[u8], levels: u32) -> anyhow::Result<String> {
    let mut text = String::from_str(heap, "ok ")?;
    for (i, entry) in entries(heap, bytes, levels)?.iter().enumerate() {
        if i > 0 {
            text.push(';')?;
        }
        put_node(&mut text, bytes, levels, entry)?;
    }
    Ok(text)
}

// Level, form, kind, rows, cell bits, flag, payload bytes, weight, whole length, and the payload's CRC-32.
fn put_node(text: &mut String, bytes: &[u8], levels: u32, entry: &Entry) -> anyhow::Result<()> {
    let head = entry.header.head;
    let Ok(kind) = Kind::try_from(head.kind) else {
        bail!("a node has no kind");
    };
    let own = from(bytes, entry.at);
    let payload = Body::read(own).payload;
    let (level, form, kind, rows) = (entry.level, head.form, kind.name(), head.rows);
    let (bits, flag, len) = (head.cell_bits, head.flag, payload.len());
    let (weight, whole, crc) = (weigh(own, levels), entry.header.whole, crc32(payload));
    write!(
        text,
        "{level},{form},{kind},{rows},{bits},{flag},{len},{weight},{whole},{crc:08x}"
    )?;
    Ok(())
}
