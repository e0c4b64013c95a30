// The rows of nodes without a scheme, read back; total on any bytes.
ghost use Rattle.std.specs.Prelude.{◌≡◌, ◌-◌, ◌^◌, ◌≤◌, true, length, is_some, slice_index};
ghost use Rattle.column.specs.Columns.{words_for};
ghost use Rattle.column.specs.Kinds.{number_of, width, signed};
ghost use Rattle.node.specs.Payloads.{unmask, words_of, widen, from_width, plain_rows, constant_rows};
ghost use Rattle.node.specs.Reading.{held_rows, rows_read, readable, LeafIn, LeafBack};
ghost use Rattle.node.specs.Forms.{number_of_form, form_of};
ghost use Rattle.packing.specs.Packing.{Below, written};

use crate::heads::Head;
use crate::slices::from;
use column::kinds::Kind;
use column::rows::words_for;
use column::views::MAX_ROWS;
use packing::{low_bits, packed_len, unpack};

// Presence words from a mask, all rows present without one, to the front of `words`; spare bits 0.
// The flag is the stored byte, which any bytes may bear; where it is 0 there is no mask, and no bytes are looked at.
pub fn read_mask(flag: u8, bytes: &[u8], rows: usize, words: &mut [u64])
    requires few { rows ≤ 131072 }
    requires room { words_for rows ≤ length words.old }
    ensures { words.new ≡ written (words_of rows (unmask flag rows bytes.now)) words.old }
{
    let words = &mut words[..words_for(rows)];
    if flag == 0 {
        words.fill(u64::MAX);
    } else {
        unpack(bytes, 64, words);
    }
    let rest = rows % 64;
    if rest != 0 {
        words[rows / 64] = low_bits(words[rows / 64] as u128, rest as u32);
    }
}

// Fills `cells` with cells at the kind's width, 0 where the bytes end.
pub fn read_at_width(kind: Kind, bytes: &[u8], cells: &mut [u64])
    ensures { cells.new ≡ from_width (number_of kind) (length cells.old) bytes.now }
{
    unpack(bytes, kind.width(), cells);
    if kind.is_signed() {
        extend_signs(kind, cells);
    }
}

// The one value at the kind's width, as much of it as the bytes have.
pub fn read_one_at_width(kind: Kind, bytes: &[u8]) -> u64
    ensures { result ≡ slice_index (from_width (number_of kind) 1 bytes.now) 0 }
{
    let mut value = [0; 1];
    read_at_width(kind, bytes, &mut value);
    value[0]
}

// Cells at a signed kind's width as words.
fn extend_signs(kind: Kind, cells: &mut [u64])
    requires signed { signed (number_of kind) ≡ true }
    requires narrow { Below (2 ^ width (number_of kind)) cells.old }
    ensures { cells.new ≡ widen (number_of kind) cells.old }
{
    let greatest = kind.greatest();
    let gap = sign_gap(kind);
    for c in cells.iter_mut() {
        if *c > greatest {
            *c += gap;
        }
    }
}

// How far a negative value's cell at a signed kind's width stands below its word.
fn sign_gap(kind: Kind) -> u64
    requires signed { signed (number_of kind) ≡ true }
    ensures { result ≡ 2 ^ 64 - 2 ^ width (number_of kind) }
{
    kind.least() - kind.greatest() - 1
}

// A form without a scheme.
#[derive(Clone, Copy)]
enum Form {
    Plain,
    Constant,
    Blank,
}

// The form's number is that of a scheme.
#[derive(Clone, Copy)]
struct HasScheme;

impl TryFrom<u8> for Form {
    type Error = HasScheme;

    ghost try_from_gives = { λ number r. r ≡ form_of number };

    fn try_from(number: u8) -> Result<Form, HasScheme> {
        match number {
            0 => Ok(Form::Plain),
            1 => Ok(Form::Constant),
            2 => Ok(Form::Blank),
            _ => Err(HasScheme),
        }
    }
}

// What a leaf's rows are read from.
#[derive(Clone, Copy)]
struct Leaf<'a> {
    form: Form,
    kind: Kind,
    flag: u8,
    payload: &'a [u8],
}

// The places stay two slices: of a struct of two `&mut`, a clause names what was written by position alone.
// The two clauses on them are no facts of a leaf: one relates the two places, the other bounds the place of the cells.
impl Leaf<'_> {
    fn read(self, cells: &mut [u64], words: &mut [u64])
        requires few { length cells.old ≤ 131072 }
        requires words { length words.old ≡ words_for (length cells.old) }
        ensures { held_rows cells.new words.new ≡ rows_read (number_of_form self.entry.form) (number_of self.entry.kind) (length cells.old) self.entry.flag self.entry.payload.now }
    {
        match self.form {
            Form::Plain => self.read_plain(cells, words),
            Form::Constant => self.read_constant(cells, words),
            Form::Blank => words.fill(0),
        }
    }

    fn read_plain(self, cells: &mut [u64], words: &mut [u64])
        requires few { length cells.old ≤ 131072 }
        requires words { length words.old ≡ words_for (length cells.old) }
        ensures { held_rows cells.new words.new ≡ plain_rows (number_of self.entry.kind) (length cells.old) self.entry.flag self.entry.payload.now }
    {
        read_at_width(self.kind, self.payload, cells);
        let len = packed_len(self.kind.width(), cells.len());
        read_mask(self.flag, from(self.payload, len), cells.len(), words);
    }

    fn read_constant(self, cells: &mut [u64], words: &mut [u64])
        requires few { length cells.old ≤ 131072 }
        requires words { length words.old ≡ words_for (length cells.old) }
        ensures { held_rows cells.new words.new ≡ constant_rows (number_of self.entry.kind) (length cells.old) self.entry.flag self.entry.payload.now }
    {
        cells.fill(read_one_at_width(self.kind, self.payload));
        let len = packed_len(self.kind.width(), 1);
        read_mask(self.flag, from(self.payload, len), cells.len(), words);
    }
}

// Reads a plain, constant or blank node's rows to the fronts of `cells` and `words`, if there is room and the head makes sense.
pub fn read_leaf(head: &Head, payload: &[u8], cells: &mut [u64], words: &mut [u64]) -> Option<()>
    ensures answer { is_some result ≡ readable head.now (length cells.old) (length words.old) }
    ensures places { LeafIn (is_some result) head.now payload.now cells.old words.old cells.new words.new }
    ensures back { LeafBack head.now payload.now (is_some result) cells.old words.old cells.new words.new }
{
    let kind = Kind::try_from(head.kind).ok()?;
    let form = Form::try_from(head.form).ok()?;
    let rows = head.rows as usize;
    if rows > MAX_ROWS {
        return None;
    }
    let (cells, _) = cells.split_at_mut_checked(rows)?;
    let (words, _) = words.split_at_mut_checked(words_for(rows))?;
    let leaf = Leaf {
        form,
        kind,
        flag: head.flag,
        payload,
    };
    leaf.read(cells, words);
    Some(())
}
