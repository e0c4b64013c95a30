// Nodes, each by its form and over its children.
ghost use Rattle.std.specs.Prelude.{◌≡◌, ◌<◌, ◌≤◌, length};
ghost use Rattle.column.specs.Columns.{Sound, seen, words_for};
ghost use Rattle.levels.specs.Plans.{share};
ghost use Rattle.scheme.specs.Memory.{parts_seen};
ghost use Rattle.reading.specs.Places.{rows_fit, parts_read, NodeIn, NodeBack, SchemeIn, SchemeBack, ChildrenIn, ChildrenBack};

use crate::restored::Restored;
use bank::Bank;
use bank::small::SmallBank;
use column::kinds::Kind;
use column::rows::words_for;
use column::views::{MAX_ROWS, View};
use node::bodies::{Body, after_node};
use node::heads::{Head, Header};
use node::leaves::read_leaf;
use scheme::scheme::Stored;

// Forms below this have no scheme.
const FIRST_ID: u8 = 16;

// A node's own part, and the bytes from its children on.
#[derive(Clone, Copy)]
pub(crate) struct Own<'a> {
    pub read: Restored,
    pub head: Head,
    pub body: Body<'a>,
}

impl<'a> Own<'a> {
    fn stored(self, child0: View<'a>, child1: View<'a>) -> Stored<'a>
        requires child0 { Sound child0 }
        requires child1 { Sound child1 }
        requires short0 { length child0.cells.now ≤ self.read.rows }
        requires short1 { length child1.cells.now ≤ self.read.rows }
        ensures kind { result.kind ≡ self.entry.read.kind }
        ensures rows { result.rows ≡ self.entry.read.rows }
        ensures few { result.rows ≤ 131072 }
        ensures child0 { Sound result.child0 }
        ensures child1 { Sound result.child1 }
        ensures short0 { length result.child0.cells.now ≤ result.rows }
        ensures short1 { length result.child1.cells.now ≤ result.rows }
        ensures parts { parts_seen 2 result ≡ parts_read self.entry (seen child0.entry) (seen child1.entry) }
    {
        Stored {
            kind: self.read.kind,
            rows: self.read.rows,
            payload: self.body.payload,
            cell_bits: self.head.cell_bits,
            flag: self.head.flag,
            child0,
            child1,
        }
    }
}

// Reads the node at the front of the bytes; what stands under blanks and in spare bits may be anything.
#[cycle(nodes)]
pub(crate) fn read_node<B: Bank>(
    bank: &SmallBank<'_, B>,
    levels: usize,
    bytes: &[u8],
    mem: &mut [u64],
    cells: &mut [u64],
    words: &mut [u64],
) -> Option<Restored>
    ensures places { NodeIn result cells.old words.old cells.new words.new }
    ensures back { NodeBack (B.Bank.meanings bank.now.schemes.now) levels bytes.now mem.old cells.old words.old result cells.new words.new }
{
    let head = Header::read(bytes)?.head;
    let kind = Kind::try_from(head.kind).ok()?;
    let rows = head.rows as usize;
    if !rows_fit(rows, cells.len(), words.len()) {
        return None;
    }
    let read = Restored { kind, rows };
    let body = Body::read(bytes);
    if head.form < FIRST_ID {
        read_leaf(&head, body.payload, cells, words)?;
        return Some(read);
    }
    if levels == 0 {
        return None;
    }
    let i = bank.find(head.form)?;
    let own = Own { read, head, body };
    let cells = &mut cells[..rows];
    let words = &mut words[..words_for(rows)];
    read_scheme(bank, levels - 1, i, own, mem, cells, words)?;
    Some(read)
}

// Joins the node of scheme `i` from its children.
#[cycle(nodes)]
fn read_scheme<B: Bank>(
    bank: &SmallBank<'_, B>,
    levels: usize,
    i: usize,
    own: Own<'_>,
    mem: &mut [u64],
    cells: &mut [u64],
    words: &mut [u64],
) -> Option<()>
    requires within { i < length (B.Bank.meanings bank.now.schemes.now) }
    requires cells { length cells.old ≡ own.read.rows }
    requires words { length words.old ≡ words_for own.read.rows }
    ensures places { SchemeIn result cells.old words.old cells.new words.new }
    ensures back { SchemeBack (B.Bank.meanings bank.now.schemes.now) levels i own.entry mem.old result cells.new words.new }
{
    let rows = own.read.rows;
    let count = words_for(rows);
    if mem.len() < share(rows) {
        return None;
    }
    let (cells0, mem) = mem.split_at_mut(rows);
    let (words0, mem) = mem.split_at_mut(count);
    let (cells1, mem) = mem.split_at_mut(rows);
    let (words1, mem) = mem.split_at_mut(count);
    let bytes = own.body.children;
    let (child0, child1) = read_children(
        bank, levels, i, bytes, mem, cells0, words0, cells1, words1,
    )?;
    let view0 = child0.view(cells0, words0);
    let view1 = child1.view(cells1, words1);
    let stored = own.stored(view0, view1);
    bank.schemes.join_at(i, stored, mem, cells, words);
    Some(())
}

// Reads the children of a node of scheme `i`, one after the other.
#[cycle(nodes)]
fn read_children<B: Bank>(
    bank: &SmallBank<'_, B>,
    levels: usize,
    i: usize,
    bytes: &[u8],
    mem: &mut [u64],
    cells0: &mut [u64],
    words0: &mut [u64],
    cells1: &mut [u64],
    words1: &mut [u64],
) -> Option<(Restored, Restored)>
    requires within { i < length (B.Bank.meanings bank.now.schemes.now) }
    ensures places { ChildrenIn result (length cells0.old) (length words0.old) (length cells1.old) (length words1.old) }
    ensures back { ChildrenBack (B.Bank.meanings bank.now.schemes.now) levels i bytes.now mem.old cells0.old words0.old cells1.old words1.old result cells0.new words0.new cells1.new words1.new }
{
    let count = bank.schemes.num_children_at(i);
    if count == 0 {
        return Some((Restored::nothing(), Restored::nothing()));
    }
    let child0 = read_node(bank, levels, bytes, mem, cells0, words0)?;
    if count == 1 {
        return Some((child0, Restored::nothing()));
    }
    let next = after_node(bytes);
    let child1 = read_node(bank, levels, next, mem, cells1, words1)?;
    Some((child0, child1))
}

// Whether a column may have so many rows, and the places hold them.
fn rows_fit(rows: usize, cells: usize, words: usize) -> bool
    ensures { result ≡ rows_fit rows cells words }
{
    rows <= MAX_ROWS && rows <= cells && words_for(rows) <= words
}

// Words that one level takes for so many rows.
fn share(rows: usize) -> usize
    requires few { rows ≤ 131072 }
    ensures { result ≡ share rows }
{
    12 * rows + 512
}
