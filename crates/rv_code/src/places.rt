//! A value put into a place.

ghost use Rattle.std.specs.Prelude.{◌≡◌, ℕ, ◌≤◌, [], ◌∷◌, length, All};
ghost use Rattle.std.specs.Int.{bit_at};
ghost use Rattle.byteorder.specs.Endian.{little_bytes};
ghost use Rattle.lk_base.specs.Fields.{field_bit};
ghost use Rattle.lk_base.specs.Formats.{field_of};
ghost use Rattle.lk_base.specs.Reaches.{Takes};
ghost use Rattle.lk_base.specs.RelocKinds.{FillsField, kind_of};
ghost use Rattle.rv_code.specs.Parts.{IsPart, run_of, runs_of};
ghost use Rattle.rv_code.specs.Places.{HoldsValue, ReadsBack, patched, placed_bit};
ghost use Rattle.rv_code.specs.Transfers.{Goes};

use crate::parts::{Part, plain_parts, rounded_parts};
use byteorder::{ByteOrder, LittleEndian};
use lk_base::low_bits;
use lk_base::relocations::{Format, kind_of};

/// The word, with the value's bits in one part.
fn put(word: u64, part: Part, value: u64) -> u64
    requires { IsPart part }
    ensures { (k : ℕ) → bit_at result k ≡ field_bit (run_of part ∷ []) word value k }
{
    let count = part.high - part.low + 1;
    let below = word % (1 << part.low);
    let field = (value >> part.from) % (1 << count);
    let above = word >> part.high >> 1;
    (((above << count) + field) << part.low) + below
}

/// The word, with the value's bits in each of these parts.
fn put_all(word: u64, parts: &[Part], value: u64) -> u64
    requires { All IsPart parts.now }
    ensures { (k : ℕ) → bit_at result k ≡ field_bit (runs_of parts.now) word value k }
{
    let mut done = word;
    let mut left = parts.len();
    while left > 0 {
        left -= 1;
        done = put(done, parts[left], value);
    }
    done
}

/// The word, with a value in the field of a format.
fn put_value(format: Format, word: u64, v: i128) -> u64
    ensures { (k : ℕ) → bit_at result k ≡ placed_bit (field_of format).rounded (field_of format).plain word v k }
{
    let bits = low_bits(v);
    let lower = put_all(word, plain_parts(format), bits);
    put_all(lower, rounded_parts(format), bits.wrapping_add(0x800))
}

/// Writes the low bytes of a number into a place, the lowest first.
fn write_number(place: &mut [u8], number: u64)
    requires { length place.old ≤ 8 }
    ensures { place.new ≡ little_bytes (length place.old) number }
{
    let count = place.len();
    place.copy_from_slice(&number.to_le_bytes()[..count]);
}

/// Puts a value into the place of a kind of relocation, one that puts a value into a field there: the value fits, and `place` has the kind's bytes. The
/// bits that the kind's field does not name stay. What was put is read from the place again, and a branch, a jump or a call there goes by
/// the value.
pub fn patch(kind: u32, place: &mut [u8], v: i128)
    requires value { FillsField kind }
    requires fits { Takes (kind_of kind).reach v }
    requires width { length place.old ≡ (kind_of kind).width }
    ensures value { place.new ≡ patched (kind_of kind).field v place.old }
    ensures field { HoldsValue (kind_of kind).field place.old v place.new }
    ensures reads_back { ReadsBack (kind_of kind).field place.old v place.new }
    ensures goes { Goes kind v place.new }
{
    let line = kind_of(kind);
    let old = LittleEndian::read_uint(place, place.len());
    let new = put_value(line.format, old, v);
    write_number(place, new);
}

/// Puts a value into the place of a kind of relocation, and of one that its field does not take the bits that the field has.
pub fn patch_bits(kind: u32, place: &mut [u8], v: i128)
    requires value { FillsField kind }
    requires width { length place.old ≡ (kind_of kind).width }
    ensures { place.new ≡ patched (kind_of kind).field v place.old }
{
    let line = kind_of(kind);
    let old = LittleEndian::read_uint(place, place.len());
    let new = put_value(line.format, old, v);
    write_number(place, new);
}
