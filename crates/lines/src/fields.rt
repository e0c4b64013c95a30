// The fields of a line, by their characters.
ghost use Rattle.std.specs.Prelude.{◌≡◌, true, false, [], ◌∷◌, Some, ◌==◌, count_by};
ghost use Rattle.std.specs.List.{find};
ghost use Rattle.std.specs.Option.{ok_or};
ghost use Rattle.std.specs.Str.{bytes_eq};
ghost use Rattle.column.specs.Kinds.{number_of, name_of};
ghost use Rattle.lines.specs.Lines.{comma, kind_named, cell_written, field_read, number_after, number_of_digits, cell_read, word_sized};

use crate::columns::LineError;
use column::kinds::Kind;

const KINDS: [Kind; 8] = [
    Kind::U8,
    Kind::U16,
    Kind::U32,
    Kind::U64,
    Kind::I8,
    Kind::I16,
    Kind::I32,
    Kind::I64,
];

// Whether a field ends before this character. A function, so that chains and the definition of a line ask by one word.
pub fn is_comma(b: u8) -> bool
    ensures { result ≡ (b == comma) }
{
    b == b','
}

// How many commas there are.
pub fn count_commas(text: &[u8]) -> usize
    ensures { result ≡ count_by (λ c. c == comma) text.now }
{
    text.iter().map(|b| usize::from(is_comma(*b))).sum()
}

fn is_named(kind: Kind, name: &[u8]) -> bool
    ensures { result ≡ bytes_eq name.now (name_of kind) }
{
    name == kind.name().as_bytes()
}

fn named_among(kinds: &[Kind], name: &[u8]) -> Option<Kind>
    ensures { result ≡ find (λ k. bytes_eq name.now (name_of k)) kinds.now }
{
    kinds.iter().copied().find(|k| is_named(*k, name))
}

// The kind whose name is these characters.
pub fn kind_named(name: &[u8]) -> Option<Kind>
    ensures { result ≡ kind_named name.now }
{
    named_among(&KINDS, name)
}

// `n` with one digit more, if the character is a digit and the number a word.
fn one_more(n: u64, b: u8) -> Option<u64>
    ensures { result ≡ word_sized (number_after n (b ∷ [])) }
{
    match b {
        b'0'..=b'9' => n.checked_mul(10)?.checked_add(u64::from(b - b'0')),
        _ => None,
    }
}

// The number that digits write, if it is a word: none of the kinds has a larger one. Not std's `parse`, which takes a `+` in front too.
fn read_digits(text: &[u8]) -> Option<u64>
    ensures { result ≡ word_sized (number_of_digits text.now) }
{
    if text.is_empty() {
        return None;
    }
    text.iter().try_fold(0, |n, b| one_more(n, *b))
}

// The cell of −n, if the kind has that number.
fn cell_below(kind: Kind, n: u64) -> Option<u64>
    ensures { result ≡ cell_read (number_of kind) true (Some n) }
{
    let furthest = kind.least().wrapping_neg();
    (n <= furthest).then_some(n.wrapping_neg())
}

// The cell of `n`, if the kind has that number.
fn cell_above(kind: Kind, n: u64) -> Option<u64>
    ensures { result ≡ cell_read (number_of kind) false (Some n) }
{
    (n <= kind.greatest()).then_some(n)
}

// The cell that digits write, after a minus or not, if they are digits and the kind has their number.
fn read_cell(kind: Kind, text: &[u8]) -> Option<u64>
    ensures { result ≡ cell_written (number_of kind) text.now }
{
    match text {
        [b'-', digits @ ..] => cell_below(kind, read_digits(digits)?),
        _ => cell_above(kind, read_digits(text)?),
    }
}

// The row of a field, a blank if it is empty.
pub fn read_field(kind: Kind, text: &[u8]) -> Result<Option<u64>, LineError>
    ensures { result ≡ ok_or (field_read (number_of kind) text.now) LineError.Unreadable }
{
    if text.is_empty() {
        return Ok(None);
    }
    let cell = read_cell(kind, text).ok_or(LineError::Unreadable)?;
    Ok(Some(cell))
}
