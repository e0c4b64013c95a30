// The two halves of a scheme together, for any scheme.
#![tactic(auto)]

ghost use Rattle.std.specs.Prelude.{◌≡◌, ◌+◌, ◌*◌, ◌≤◌, true, length};
ghost use Rattle.roundtrip.specs.Trips.{child_rows, child_offer, gathered, Returned};
ghost use Rattle.column.specs.Columns.{Sound, offer_seen, seen, words_for};
ghost use Rattle.column.specs.Kinds.{number_of};
ghost use Rattle.scheme.specs.Memory.{Room, spare, held};

use column::cleaned::Cleaned;
use column::kinds::Kind;
use column::rows::words_for;
use column::views::View;
use scheme::scheme::{ChildShape, RowRefused, Scheme, Shape, Stored};

// A child at the front of lent places, with no rows where there is no such child.
fn child_in<'a>(child: Option<ChildShape>, cells: &'a [u64], words: &'a [u64]) -> View<'a>
    requires few { child_rows child ≤ 131072 }
    requires cells { child_rows child ≤ length cells.now }
    requires words { words_for (child_rows child) ≤ length words.now }
    ensures is { offer_seen result ≡ child_offer child cells.entry.now words.entry.now }
    ensures rows { length result.cells.now ≡ child_rows child }
    ensures sound { Sound result }
{
    match child {
        Some(ChildShape { kind, rows }) => View {
            kind,
            cells: &cells[..rows],
            words: &words[..words_for(rows)],
        },
        None => View {
            kind: Kind::U8,
            cells: &[],
            words: &[],
        },
    }
}

// Takes a column apart and joins it again, into `cells` and `words`; or the row at which the parts are refused.
pub fn round_trip<S: Scheme>(
    s: &S,
    array: Cleaned<'_>,
    cells0: &mut [u64],
    words0: &mut [u64],
    cells1: &mut [u64],
    words1: &mut [u64],
    mem: &mut [u64],
    out: &mut [u8],
    cells: &mut [u64],
    words: &mut [u64],
) -> Result<(), RowRefused>
    requires kind { (S.Scheme.meaning s.now).takes (number_of array.view.kind) ≡ true }
    requires room { Room (length array.view.cells.now) cells0.old words0.old cells1.old words1.old mem.old }
    requires bytes { 9 * length array.view.cells.now + 16 ≤ length out.old }
    requires cells { length cells.old ≡ length array.view.cells.now }
    requires words { length words.old ≡ length array.view.words.now }
    ensures { Returned ((S.Scheme.meaning s.now).parts (seen array.entry.view)) (seen array.entry.view) result (held (number_of array.entry.view.kind) cells.old words.old) (held (number_of array.entry.view.kind) cells.new words.new) }
{
    let shape = s.shape(array, cells0, words0, cells1, words1, mem)?;
    s.payload(array, mem, out);
    let count = s.num_children();
    let child0 = child_in((count > 0).then_some(shape.child0), cells0, words0);
    let child1 = child_in((count > 1).then_some(shape.child1), cells1, words1);
    let stored = Stored {
        kind: array.view.kind,
        rows: array.view.cells.len(),
        payload: &out[..shape.payload],
        cell_bits: shape.cell_bits,
        flag: shape.flag,
        child0,
        child1,
    };
    s.join(stored, mem, cells, words);
    Ok(())
}
