//! Records with their relocations done.

ghost use Rattle.std.specs.Prelude.{◌≡◌, ◌+◌, ◌-◌, ◌^◌, ◌≤◌, ◌<◌, ◌++◌, ◌≤ℤ◌, true, length, pos, take, drop};
ghost use Rattle.std.specs.List.{All};
ghost use Rattle.lk_base.specs.Formats.{field_of};
ghost use Rattle.lk_base.specs.declared.relocations.Format.TheVariants.{Byte, Word};
ghost use Rattle.lk_base.specs.RelocKinds.{FillsField, fills_field as spec_fills, kind_of as spec_kind};
ghost use Rattle.lk_tables.specs.Files.{file_at};
ghost use Rattle.lk_tables.specs.Records.{has_width};
ghost use Rattle.lk_tables.specs.Relocations.{place_width};
ghost use Rattle.link_sections.specs.Views.{by_view, files_in};
ghost use Rattle.rv_code.specs.Places.{number_of, patched};
ghost use Rattle.eh_frame.specs.Bytes as spec;

use crate::values::value_in;
use byteorder::{ByteOrder, LittleEndian};
use link_sections::View;
use lk_base::relocations::{Format, fills_field, kind_of};
use lk_base::{FileNo, low_bits};
use lk_tables::{Record, Reloc};
use rv_code::patch_bits;

/// Does the relocations of a record of a file, whose bytes are those from a place on, and which stands at an address.
pub fn relocate_from(
    view: &View,
    file: FileNo,
    own: &Record,
    address: u128,
    bytes: &mut [u8],
    start: usize,
)
    requires file { file < length (files_in view.now) }
    requires live { (file_at (files_in view.now) file).live ≡ true }
    requires after { All (λ r. own.now.from ≤ r.offset) own.now.relocs.items }
    requires places { All (λ r. has_width r ≡ true → r.offset + place_width r ≤ own.now.from + 4 + own.now.len) own.now.relocs.items }
    requires whole { start + (4 + own.now.len) ≡ length bytes.old }
    requires low { address ≤ 2 ^ 65 }
    ensures bytes { bytes.new ≡ take start bytes.old ++ by_view spec.relocated view.now file own.now.from address own.now.relocs.items (drop start bytes.old) }
    ensures len { length bytes.new ≡ length bytes.old }
{
    relocate(
        view,
        file,
        own.from,
        address,
        own.relocs.as_slice(),
        &mut bytes[start..],
    );
}

/// Does the relocations of a record of a file, which starts at an offset of its section, and stands at an address.
fn relocate(view: &View, file: FileNo, from: u64, address: u128, relocs: &[Reloc], bytes: &mut [u8])
    requires file { file < length (files_in view.now) }
    requires live { (file_at (files_in view.now) file).live ≡ true }
    requires after { All (λ r. from ≤ r.offset) relocs.now }
    requires places { All (λ r. has_width r ≡ true → r.offset + place_width r ≤ from + length bytes.old) relocs.now }
    requires low { address ≤ 2 ^ 65 }
    ensures { bytes.new ≡ by_view spec.relocated view.now file from address relocs.now bytes.old }
{
    for reloc in relocs {
        relocate_one(view, file, from, address, reloc, bytes);
    }
}

/// Does one relocation of a record that starts at an offset of its section, and stands at an address.
fn relocate_one(
    view: &View,
    file: FileNo,
    from: u64,
    address: u128,
    reloc: &Reloc,
    bytes: &mut [u8],
)
    requires file { file < length (files_in view.now) }
    requires live { (file_at (files_in view.now) file).live ≡ true }
    requires after { from ≤ reloc.now.offset }
    requires within { spec_fills reloc.now.kind ≡ true → reloc.now.offset - from + (spec_kind reloc.now.kind).width ≤ length bytes.old }
    requires low { address ≤ 2 ^ 65 }
    ensures { bytes.new ≡ by_view spec.put view.now file from address reloc.now bytes.old }
{
    if !fills_field(reloc.kind) {
        return;
    }
    let at = reloc.offset - from;
    let width = kind_of(reloc.kind).width;
    fill_place(
        view,
        file,
        reloc,
        address + at as u128,
        &mut bytes[at as usize..(at + width) as usize],
    );
}

/// Puts the value of a relocation into its place, which stands at an address.
fn fill_place(view: &View, file: FileNo, reloc: &Reloc, address: u128, place: &mut [u8])
    requires file { file < length (files_in view.now) }
    requires live { (file_at (files_in view.now) file).live ≡ true }
    requires fills { FillsField reloc.now.kind }
    requires width { length place.old ≡ (spec_kind reloc.now.kind).width }
    requires low { address ≤ 2 ^ 66 }
    ensures { place.new ≡ spec.filled (spec_kind reloc.now.kind) (by_view spec.value_in view.now file reloc.now (pos address) (pos (number_of place.old))) place.old }
{
    let held = LittleEndian::read_uint(place, place.len());
    let Some(v) = value_in(view, file, reloc, address as i128, held) else {
        return;
    };
    put_value(reloc.kind, place, v);
}

/// Puts the bits of a value that its field has into a place. Most places are numbers that the value sets whole.
fn put_value(kind: u32, place: &mut [u8], v: i128)
    requires value { FillsField kind }
    requires width { length place.old ≡ (spec_kind kind).width }
    ensures { place.new ≡ patched (spec_kind kind).field v place.old }
{
    if place.len() == 4 {
        put_word(kind, place, v);
        return;
    }
    if place.len() == 1 {
        put_byte(kind, place, v);
        return;
    }
    patch_bits(kind, place, v);
}

/// Puts the bits of a value that its field has into a place of four bytes.
fn put_word(kind: u32, place: &mut [u8], v: i128)
    requires value { FillsField kind }
    requires width { length place.old ≡ (spec_kind kind).width }
    requires four { length place.old ≡ 4 }
    ensures { place.new ≡ patched (spec_kind kind).field v place.old }
{
    if !is_word(kind) {
        patch_bits(kind, place, v);
        return;
    }
    let bits = low_bits(v);
    place.copy_from_slice(&bits.to_le_bytes()[..4]);
}

/// Puts the bits of a value that its field has into a place of one byte.
fn put_byte(kind: u32, place: &mut [u8], v: i128)
    requires value { FillsField kind }
    requires width { length place.old ≡ (spec_kind kind).width }
    requires one { length place.old ≡ 1 }
    ensures { place.new ≡ patched (spec_kind kind).field v place.old }
{
    if !is_byte(kind) {
        patch_bits(kind, place, v);
        return;
    }
    let bits = low_bits(v);
    place.copy_from_slice(&bits.to_le_bytes()[..1]);
}

/// Whether the field of a kind is a number of four bytes.
fn is_word(kind: u32) -> bool
    ensures { result ≡ true → (spec_kind kind).field ≡ field_of Word }
{
    matches!(kind_of(kind).format, Format::Word)
}

/// Whether the field of a kind is a number of one byte.
fn is_byte(kind: u32) -> bool
    ensures { result ≡ true → (spec_kind kind).field ≡ field_of Byte }
{
    matches!(kind_of(kind).format, Format::Byte)
}
