//! The first bytes of names as numbers, which stand in the order of the names.

ghost use Rattle.std.specs.Prelude.{◌≡◌, ◌<◌, All, slice_index};
ghost use Rattle.std.specs.Cmp.Lexicographic.{slice_cmp};
ghost use Rattle.std.specs.Ordering.{nat_cmp};
ghost use Rattle.symbol_table.specs.NameKeys.{key_of};

use std::cmp::Ordering;

/// The first eight bytes of a name as a number, the first one highest; those past its end are 0.
pub fn key_of(name: &[u8]) -> u64
    ensures value { result ≡ key_of name.now }
    ensures bytes { All (λ byte. byte < 256) name.now }
{
    let mut key: u64 = 0;
    for at in 0..8 {
        key = 256 * key + byte_at(name, at) as u64;
    }
    key
}

/// The order of two names of these keys: that of the keys, and of one key that of all bytes.
pub fn order_of(key: u64, name: &[u8], other_key: u64, other: &[u8]) -> Ordering
    requires own { key ≡ key_of name.now }
    requires own_bytes { All (λ byte. byte < 256) name.now }
    requires others { other_key ≡ key_of other.now }
    requires others_bytes { All (λ byte. byte < 256) other.now }
    ensures { result ≡ slice_cmp nat_cmp name.now other.now }
{
    if key < other_key {
        return Ordering::Less;
    }
    if other_key < key {
        return Ordering::Greater;
    }
    name.cmp(other)
}

/// The byte at a place, 0 past the end.
fn byte_at(name: &[u8], at: usize) -> u8
    ensures { result ≡ slice_index name.now at }
{
    match name.get(at) {
        Some(byte) => *byte,
        None => 0,
    }
}
