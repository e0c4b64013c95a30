// Children of a scheme: the kinds they take, and their values, read back from any bytes.
ghost use Rattle.std.specs.Prelude.{◌≡◌, ℕ, slice_index};
ghost use Rattle.column.specs.Kinds.{number_of};
ghost use Rattle.scheme.specs.Children.{narrow};

use column::kinds::Kind;

// The narrowest of U8, U16 and U32 for numbers up to `n`.
pub fn narrowest(n: usize) -> Kind
    ensures { number_of result ≡ narrow n }
{
    match n {
        0..256 => Kind::U8,
        256..65_536 => Kind::U16,
        _ => Kind::U32,
    }
}

// The value at `i`, 0 past the end.
pub fn value_at(values: &[u64], i: usize) -> u64
    ensures { result ≡ slice_index values.now i }
{
    values.get(i).copied().unwrap_or(0)
}
