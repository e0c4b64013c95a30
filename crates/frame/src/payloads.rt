// The payload: the least value at the width, the distances packed, the mask.
ghost use Rattle.std.specs.Prelude.{◌≡◌, ◌+◌, ◌-◌, ◌%◌, ◌^◌, ◌≤◌, min, map, length, drop, if◌then◌else◌};
ghost use Rattle.column.specs.Columns.{seen, values, words_for};
ghost use Rattle.column.specs.Kinds.{number_of, width};
ghost use Rattle.frame.specs.Frame.{base, over_base, body_by, payload_by, frame_len, added_to, frame_rows};
ghost use Rattle.packing.specs.Packing.{Below, packed_len, written};
ghost use Rattle.scheme.specs.Memory.{held};

use crate::reference::Reference;
use column::cleaned::Cleaned;
use node::extent::Extent;
use node::leaves::read_mask;
use node::payloads::{write_at_width, write_mask};
use node::slices::from;
use packing::{pack, packed_len, unpack};
use scheme::scheme::Stored;

pub fn payload_len(extent: Extent, reference: Reference) -> usize
    ensures { result ≡ frame_len (number_of extent.kind) reference.bits extent.rows extent.has_blank }
{
    let distances = packed_len(reference.bits, extent.rows);
    packed_len(extent.kind.width(), 1) + distances + extent.mask_len()
}

// A row's distance from the least value, 0 under a blank.
fn distance(present: bool, cell: u64, least: u64) -> u64
    ensures { result ≡ (if present then (cell + (2 ^ 64 - least)) % 2 ^ 64 else 0) }
{
    if present { cell.wrapping_sub(least) } else { 0 }
}

// Each row's distance from the least value, 0 under blanks.
pub fn write_distances(array: Cleaned<'_>, least: u64, out: &mut [u64])
    requires least { least ≡ base (number_of array.view.kind) (values (seen array.view)) }
    requires room { length out.old ≡ length array.view.cells.now }
    ensures { out.new ≡ map (over_base (number_of array.entry.view.kind) least) (seen array.entry.view).rows }
{
    let view = array.view;
    // By place: no proof knows what is written through an `iter_mut` under `zip`.
    for (i, place) in out.iter_mut().enumerate() {
        *place = distance(view.is_present(i), view.cells[i], least);
    }
}

// Writes the distances at the reference's bits, and the mask, to the front of `out`.
fn write_body(array: Cleaned<'_>, reference: Reference, distances: &[u64], out: &mut [u8])
    requires few { length distances.now ≤ 131072 }
    requires narrow { Below (2 ^ reference.bits) distances.now }
    requires room { length (body_by reference.bits distances.now (seen array.view).rows) ≤ length out.old }
    ensures { out.new ≡ written (body_by reference.bits distances.now (seen array.entry.view).rows) out.old }
{
    pack(distances, reference.bits, out);
    let len = packed_len(reference.bits, distances.len());
    write_mask(array, &mut out[len..]);
}

// Writes the least value at the width, the distances at the reference's bits, and the mask to the front of `out`.
pub fn write_payload(array: Cleaned<'_>, reference: Reference, distances: &[u64], out: &mut [u8])
    requires few { length distances.now ≤ 131072 }
    requires narrow { Below (2 ^ reference.bits) distances.now }
    requires room { length (payload_by (number_of array.view.kind) reference.least reference.bits distances.now (seen array.view).rows) ≤ length out.old }
    ensures { out.new ≡ written (payload_by (number_of array.entry.view.kind) reference.least reference.bits distances.now (seen array.entry.view).rows) out.old }
{
    let start = write_at_width(array.view.kind, &[reference.least], out);
    write_body(array, reference, distances, &mut out[start..]);
}

// Each distance becomes a value again.
fn add_to_each(least: u64, cells: &mut [u64])
    ensures { cells.new ≡ added_to least cells.old }
{
    for c in cells.iter_mut() {
        *c = least.wrapping_add(*c);
    }
}

// Fills `cells` and `words` from the distances and the mask that follow the least value.
// The places stay two slices, as `join` is given them: a clause sees a struct of two `&mut` by position alone.
pub fn read_values(stored: Stored<'_>, least: u64, cells: &mut [u64], words: &mut [u64])
    requires few { stored.rows ≤ 131072 }
    requires cells { length cells.old ≡ stored.rows }
    requires words { length words.old ≡ words_for stored.rows }
    ensures { held (number_of stored.entry.kind) cells.new words.new ≡ record { kind = number_of stored.entry.kind; rows = frame_rows stored.entry.rows (min stored.entry.cell_bits 64) stored.entry.flag least (drop (packed_len (width (number_of stored.entry.kind)) 1) stored.entry.payload.now) } }
{
    let body = from(stored.payload, packed_len(stored.kind.width(), 1));
    let bits = u32::from(stored.cell_bits.min(64));
    unpack(body, bits, cells);
    add_to_each(least, cells);
    let len = packed_len(bits, stored.rows);
    read_mask(stored.flag, from(body, len), stored.rows, words);
}
