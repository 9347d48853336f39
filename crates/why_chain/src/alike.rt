//! What has to be equal of two items whatever else is folded, compared.

ghost use Rattle.std.specs.Prelude.{◌≡◌, ◌++◌, ◌<◌, ◌+◌, length, map, slice_index, bytes_eq};
ghost use Rattle.std.specs.Cmp.Lexicographic.{pointwise};
ghost use Rattle.link_sections.specs.FoldItems.{frame_view, frame_views, item_view};
ghost use Rattle.icf_part.specs.Folding.{key_of, site_of};
ghost use Rattle.icf_part.specs.Leaders.{same_frame, same_key, same_site};

use link_sections::{FoldFrame, FoldItem, FoldReloc};

/// Whether two items have one key: all that has to be equal whatever else is folded.
pub fn same_key(one: &FoldItem, two: &FoldItem) -> bool
    ensures { result ≡ same_key (key_of (item_view one.now)) (key_of (item_view two.now)) }
{
    one.bytes == two.bytes
        && one.flags == two.flags
        && one.sh_type == two.sh_type
        && one.align == two.align
        && one.output == two.output
        && one.own == two.own
        && same_frames(one.frames.as_slice(), two.frames.as_slice())
        && same_sites(one.relocs.as_slice(), two.relocs.as_slice())
}

/// Whether relocations are equal, but for what they stand for.
fn same_sites(one: &[FoldReloc], two: &[FoldReloc]) -> bool
    ensures { result ≡ pointwise same_site (map site_of one.now) (map site_of two.now) }
{
    if one.len() != two.len() {
        return false;
    }
    for k in 0..one.len() {
        if !same_site(&one[k], &two[k]) {
            return false;
        }
    }
    true
}

/// Whether two relocations are equal, but for what they stand for.
fn same_site(one: &FoldReloc, two: &FoldReloc) -> bool
    ensures { result ≡ same_site (site_of one.now) (site_of two.now) }
{
    one.offset == two.offset
        && one.kind == two.kind
        && one.addend == two.addend
        && one.is_section_symbol == two.is_section_symbol
}

/// Whether frames are equal, each with its CIE.
fn same_frames(one: &[FoldFrame], two: &[FoldFrame]) -> bool
    ensures { result ≡ pointwise same_frame (frame_views one.now) (frame_views two.now) }
{
    if one.len() != two.len() {
        return false;
    }
    for k in 0..one.len() {
        if !same_frame(&one[k], &two[k]) {
            return false;
        }
    }
    true
}

/// Whether two frames are equal, each with its CIE.
fn same_frame(one: &FoldFrame, two: &FoldFrame) -> bool
    ensures { result ≡ same_frame (frame_view one.now) (frame_view two.now) }
{
    same_joined(one.head, one.tail, two.head, two.tail)
        && one.cie == two.cie
        && one.offset == two.offset
        && one.rest == two.rest
        && one.others == two.others
        && one.shared == two.shared
}

/// Whether two lists of bytes are equal, each of which is given in two parts.
fn same_joined(head: &[u8], tail: &[u8], other: &[u8], rest: &[u8]) -> bool
    ensures { result ≡ bytes_eq (head.now ++ tail.now) (other.now ++ rest.now) }
{
    if head.len() + tail.len() != other.len() + rest.len() {
        return false;
    }
    for k in 0..head.len() + tail.len() {
        if byte_at(head, tail, k) != byte_at(other, rest, k) {
            return false;
        }
    }
    true
}

/// A byte of a list that is given in two parts.
fn byte_at(head: &[u8], tail: &[u8], k: usize) -> u8
    requires { k < length head.now + length tail.now }
    ensures { result ≡ slice_index (head.now ++ tail.now) k }
{
    if k < head.len() {
        return head[k];
    }
    tail[k - head.len()]
}
