// The payloads of nodes without a scheme, and masks, which schemes use too.
ghost use Rattle.std.specs.Prelude.{◌≡◌, ◌^◌, ◌≤◌, [], ◌∷◌, ◌++◌, length};
ghost use Rattle.column.specs.Columns.{Sound, seen, values};
ghost use Rattle.column.specs.Kinds.{number_of, width};
ghost use Rattle.node.specs.Payloads.{mask, at_width, plain_payload, first_of, constant_payload};
ghost use Rattle.packing.specs.Packing.{joined, digits, packed_len, written};

use column::cleaned::Cleaned;
use column::kinds::Kind;
use column::views::View;
use packing::{pack, packed_len, put_words};

// Writes the mask to the front of `out`; nothing where there is no blank.
pub fn write_mask(array: Cleaned<'_>, out: &mut [u8])
    requires room { length (mask (seen array.view).rows) ≤ length out.old }
    ensures { out.new ≡ written (mask (seen array.entry.view).rows) out.old }
{
    if array.view.has_blank() {
        put_bits(array.view, out);
    }
}

// The first bits of the words, one a row, as bytes.
fn put_bits(view: View<'_>, out: &mut [u8])
    requires sound { Sound view }
    requires room { packed_len 1 (length view.cells.now) ≤ length out.old }
    ensures { out.new ≡ written (digits 256 (packed_len 1 (length view.entry.cells.now)) (joined (2 ^ 64) view.entry.words.now)) out.old }
{
    put_words(view.words, packed_len(1, view.rows()), out);
}

// Writes the cells at the kind's width to the front of `out`, and says how many bytes they take.
pub fn write_at_width(kind: Kind, cells: &[u64], out: &mut [u8]) -> usize
    requires few { length cells.now ≤ 131072 }
    requires room { packed_len (width (number_of kind)) (length cells.now) ≤ length out.old }
    ensures len { result ≡ packed_len (width (number_of kind)) (length cells.now) }
    ensures bytes { out.new ≡ written (at_width (number_of kind) cells.now) out.old }
{
    let width = kind.width();
    pack(cells, width, out);
    packed_len(width, cells.len())
}

// Writes cells and mask to the front of `out`.
pub fn write_plain(array: Cleaned<'_>, out: &mut [u8])
    requires room { length (plain_payload (seen array.view)) ≤ length out.old }
    ensures { out.new ≡ written (plain_payload (seen array.entry.view)) out.old }
{
    write_masked(array, array.view.cells, out);
}

// Writes the value, which is the column's first, and the mask to the front of `out`.
pub fn write_constant(array: Cleaned<'_>, value: u64, out: &mut [u8])
    requires first { first_of (values (seen array.view)) ≡ value ∷ [] }
    requires room { length (constant_payload (seen array.view)) ≤ length out.old }
    ensures { out.new ≡ written (constant_payload (seen array.entry.view)) out.old }
{
    write_masked(array, &[value], out);
}

// Writes these cells at the column's width, and its mask.
fn write_masked(array: Cleaned<'_>, cells: &[u64], out: &mut [u8])
    requires few { length cells.now ≤ 131072 }
    requires room { length (at_width (number_of array.view.kind) cells.now ++ mask (seen array.view).rows) ≤ length out.old }
    ensures { out.new ≡ written (at_width (number_of array.entry.view.kind) cells.now ++ mask (seen array.entry.view).rows) out.old }
{
    let len = write_at_width(array.view.kind, cells, out);
    write_mask(array, &mut out[len..]);
}
