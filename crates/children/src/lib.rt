// A column taken apart by a scheme of a bank, its children in lent memory.
#![tactic(auto)]

ghost use Rattle.std.specs.Prelude.{◌≡◌, ◌≤◌, length};
ghost use Rattle.children.specs.Apart.{places_for, ChildStored, child_column, apart_seen, apart_of};
ghost use Rattle.column.specs.Columns.{seen};
ghost use Rattle.column.specs.Kinds.{number_of};
ghost use Rattle.levels.specs.NodesOf.{Able};
ghost use Rattle.scheme.specs.Banks.{at};
ghost use Rattle.scheme.specs.Memory.{spare};

use bank::Bank;
use column::cleaned::Cleaned;
use column::rows::words_for;
use column::views::View;
use scheme::scheme::{ChildShape, RowRefused};

// As many as the scheme has.
#[derive(Clone, Copy)]
pub enum Children<'a> {
    None,
    One(Cleaned<'a>),
    Two(Cleaned<'a>, Cleaned<'a>),
}

// The parts of a column but for the payload's bytes.
#[derive(Clone, Copy)]
pub struct Apart<'a> {
    pub payload: usize,
    pub cell_bits: u8,
    pub flag: u8,
    pub children: Children<'a>,
}

// The child that a scheme left in these places.
fn child<'a>(shape: ChildShape, cells: &'a [u64], words: &'a [u64]) -> Cleaned<'a>
    requires { ChildStored shape cells.now words.now }
    ensures { seen result.view ≡ child_column shape cells.entry.now words.entry.now }
{
    let rows = shape.rows;
    let view = View {
        kind: shape.kind,
        cells: &cells[..rows],
        words: &words[..words_for(rows)],
    };
    Cleaned { view }
}

// Words of the places that the children of n rows are left in.
pub fn places_for(rows: usize) -> usize
    requires few { rows ≤ 131072 }
    ensures { result ≡ places_for rows }
{
    2 * (rows + words_for(rows))
}

// Takes a column apart by the scheme of number `i`, its children in the places; or the row at which the parts are refused.
pub fn take_apart<'a, B: Bank>(
    bank: &B,
    i: usize,
    array: Cleaned<'_>,
    places: &'a mut [u64],
    mem: &mut [u64],
) -> Result<Apart<'a>, RowRefused>
    requires able { Able (B.Bank.meanings bank.now) (number_of array.view.kind) i }
    requires places { places_for (length array.view.cells.now) ≤ length places.old }
    requires room { spare (length array.view.cells.now) ≤ length mem.old }
    ensures { apart_seen result ≡ apart_of ((at (B.Bank.meanings bank.now) i).parts (seen array.entry.view)) }
{
    let rows = array.view.rows();
    let count = words_for(rows);
    let (cells0, rest) = places.split_at_mut(rows);
    let (words0, rest) = rest.split_at_mut(count);
    let (cells1, words1) = rest.split_at_mut(rows);
    let shape = bank.shape_at(i, array.view, cells0, words0, cells1, words1, mem)?;
    let num = bank.num_children_at(i);
    let children = if num == 0 {
        Children::None
    } else if num == 1 {
        Children::One(child(shape.child0, cells0, words0))
    } else {
        Children::Two(
            child(shape.child0, cells0, words0),
            child(shape.child1, cells1, words1),
        )
    };
    Ok(Apart {
        payload: shape.payload,
        cell_bits: shape.cell_bits,
        flag: shape.flag,
        children,
    })
}
