// Parts of a slice, as far as it goes.
ghost use Rattle.std.specs.Prelude.{◌≡◌, take, drop};

pub fn up_to(bytes: &[u8], end: usize) -> &[u8]
    ensures { result.now ≡ take end bytes.now }
{
    bytes.get(..end).unwrap_or(bytes)
}

pub fn from(bytes: &[u8], start: usize) -> &[u8]
    ensures { result.now ≡ drop start bytes.now }
{
    bytes.get(start..).unwrap_or(&[])
}
