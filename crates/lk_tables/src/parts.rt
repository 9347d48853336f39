//! Parts of bytes, as far as there are any.

ghost use Rattle.std.specs.Prelude.{◌≡◌, take, drop};

/// So many bytes from an offset on; what lies past the end is left out.
pub fn part_of(bytes: &[u8], offset: u64, size: u64) -> &[u8]
    ensures { result.now ≡ take size (drop offset bytes.now) }
{
    first_bytes(bytes_from(bytes, offset), size)
}

/// Bytes from an offset on; none past the end.
fn bytes_from(bytes: &[u8], offset: u64) -> &[u8]
    ensures { result.now ≡ drop offset bytes.now }
{
    &bytes[(offset as usize).min(bytes.len())..]
}

/// So many of the first bytes, or all.
fn first_bytes(bytes: &[u8], count: u64) -> &[u8]
    ensures { result.now ≡ take count bytes.now }
{
    &bytes[..(count as usize).min(bytes.len())]
}
