//! All members of the layout that meet a block of the executable, written: sections with their relocations done, pools of merged pieces,
//! and the global offset table.

ghost use Rattle.std.specs.Prelude.{◌≡◌, ℕ, ◌+◌, ◌-◌, ◌^◌, ◌<◌, ◌≤◌, [], true, min, length, IsOk, OnErr, OnOk, slice_index_or, if◌then◌else◌, Some, None};
ghost use Rattle.lk_base.specs.Firsts.{IsFirst, Passes};
ghost use Rattle.lk_base.specs.declared.abi.TheConstants.{IMAGE_BASE};
ghost use Rattle.lk_tables.specs.Files.{section_total};
ghost use Rattle.link_sections.specs.declared.members.Content.TheVariants.{Section};
ghost use Rattle.link_sections.specs.LaidOut.{start_at};
ghost use Rattle.link_sections.specs.Views.{by_view, files_in, laid_in};
ghost use Rattle.reloc_apply.specs.Image.{ShowsFrom};
ghost use Rattle.reloc_apply.specs.Relocated as spec;
ghost use Rattle.reloc_apply.specs.Founds.{AreOneAfterOther, IsFound, no_member};

use crate::founds::{Found, earlier};
use crate::pool_pieces::write_pool;
use crate::scanning::relocate;
use crate::sites::site_of;
use crate::sources::{has_bits, source_of};
use crate::staying::fill_staying;
use crate::table_words::write_table;
use crate::touching::first_touching;
use link_sections::{Content, Member, View};
use lk_base::abi::IMAGE_BASE;
use lk_base::{Defect, SecNo};

/// Writes what the members of the layout have in a block of the executable that starts at the file offset `from`: sections with their
/// relocations done, pools of merged pieces, and the global offset table. The relocations that touch the block are tested before the first
/// byte is written: the first defect of one, in order of file, section and offset, is the answer, and the block is then as it was. Takes no
/// memory. It is sure to write where all relocations can be done.
pub fn apply(block: &mut [u8], from: u64, view: &View) -> Result<(), Defect>
    requires { from + length block.old < 2 ^ 63 }
    ensures goes { Passes result (by_view spec.touching_defects view.now from (length block.old)) }
    ensures bytes { OnOk result (ShowsFrom from block.old block.new (by_view spec.relocated_pieces view.now)) }
    ensures kept { OnErr result (block.new ≡ block.old) }
    ensures sure { by_view spec.relocation_defects view.now ≡ [] → IsOk result }
{
    if let Some(defect) = first_defect(view, from, block.len() as u64) {
        return Err(defect);
    }
    write_block(block, from, view);
    Ok(())
}

/// Writes what the members of the layout have in a block of the executable that starts at the file offset `from`, with the relocations
/// of sections done, and tests none. Takes no memory.
#[tactic(auto, unfolding(crate::specs::Relocated::relocated_pieces))]
pub fn write_block(block: &mut [u8], from: u64, view: &View)
    requires { from + length block.old < 2 ^ 63 }
    ensures { ShowsFrom from block.old block.new (by_view spec.relocated_pieces view.now) }
{
    let last = members_before(view, from + block.len() as u64);
    for k in members_past(view, from)..last {
        write_member(block, from, view, k);
    }
}

/// How many members end at a file offset or before it.
#[tactic(auto, unfolding(link_sections::specs::LaidOut::layout_view, link_sections::specs::LaidOut::with_contents))]
fn members_past(view: &View, offset: u64) -> usize
    requires { offset < 2 ^ 63 }
    ensures bound { result ≤ length (laid_in view.now).members }
    ensures before { (k : ℕ) → k < result → (slice_index_or (laid_in view.now).members k no_member).start + (slice_index_or (laid_in view.now).members k no_member).size ≤ IMAGE_BASE + offset }
{
    ended_before(view.layout.members.as_slice(), IMAGE_BASE + offset)
}

/// How many members start before a file offset.
#[tactic(auto, unfolding(link_sections::specs::LaidOut::layout_view, link_sections::specs::LaidOut::with_contents))]
fn members_before(view: &View, offset: u64) -> usize
    requires { offset < 2 ^ 63 }
    ensures bound { result ≤ length (laid_in view.now).members }
    ensures after { (k : ℕ) → result ≤ k → k < length (laid_in view.now).members → IMAGE_BASE + offset ≤ (slice_index_or (laid_in view.now).members k no_member).start }
{
    begun_before(view.layout.members.as_slice(), IMAGE_BASE + offset)
}

/// How many members end at an address or before it, of members that stand one after the other.
fn ended_before(members: &[Member], address: u64) -> usize
    requires order { AreOneAfterOther members.now }
    requires low { address < 2 ^ 64 - 1 }
    ensures bound { result ≤ length members.now }
    ensures before { (k : ℕ) → k < result → (slice_index_or members.now k no_member).start + (slice_index_or members.now k no_member).size ≤ address }
{
    members.partition_point(|member| end_of(member) < address + 1)
}

/// The address after a member, or the greatest of 64 bits.
fn end_of(member: &Member) -> u64
    ensures { result ≡ min (member.now.start + member.now.size) (2 ^ 64 - 1) }
{
    member.start.saturating_add(member.size)
}

/// How many members start before an address, of members that stand one after the other.
fn begun_before(members: &[Member], address: u64) -> usize
    requires { AreOneAfterOther members.now }
    ensures bound { result ≤ length members.now }
    ensures after { (k : ℕ) → result ≤ k → k < length members.now → address ≤ (slice_index_or members.now k no_member).start }
{
    members.partition_point(|member| member.start < address)
}

/// Writes what a member, by its number, has in the block.
#[tactic(auto, unfolding(crate::specs::Relocated::member_pieces))]
fn write_member(block: &mut [u8], from: u64, view: &View, k: usize)
    requires block { from + length block.old < 2 ^ 63 }
    requires member { k < length (laid_in view.now).members }
    ensures { ShowsFrom from block.old block.new (by_view spec.member_pieces view.now (slice_index_or (laid_in view.now).members k no_member)) }
{
    let member = member_at(view, k);
    let at = member.start - IMAGE_BASE;
    match member.content {
        Content::Section(section) => write_section(block, from, view, section, at),
        Content::Pool(pool) => write_pool(block, from, view, pool, at),
        Content::Got => write_table(block, from, view, at),
    }
}

/// A member by its number.
#[tactic(auto, unfolding(link_sections::specs::LaidOut::layout_view, link_sections::specs::LaidOut::with_contents))]
fn member_at(view: &View, k: usize) -> Member
    requires { k < length (laid_in view.now).members }
    ensures { result ≡ slice_index_or (laid_in view.now).members k no_member }
{
    view.layout.members[k]
}

/// Writes what a section of the layout has in the block, if it has bytes in its file.
#[tactic(auto, unfolding(crate::specs::Relocated::content_pieces))]
fn write_section(block: &mut [u8], from: u64, view: &View, section: SecNo, at: u64)
    requires block { from + length block.old < 2 ^ 63 }
    requires number { section < section_total (files_in view.now) }
    requires laid { by_view spec.has_bits view.now section ≡ true → by_view spec.is_laid view.now section ≡ true }
    requires place { at ≡ start_at (laid_in view.now) section - IMAGE_BASE }
    ensures { ShowsFrom from block.old block.new (by_view spec.content_pieces view.now at (Section section)) }
{
    if !has_bits(view, site_of(view.tables, section)) {
        return;
    }
    let source = source_of(view, section);
    fill_staying(block, from, source.at, source.raw, source.cuts);
    relocate(block, from, view, &source);
}

/// The number of a member's section, if it is one with bytes in its file.
fn section_in(view: &View, k: usize) -> Option<SecNo>
    requires { k < length (laid_in view.now).members }
    ensures { result ≡ by_view spec.written_in view.now (slice_index_or (laid_in view.now).members k no_member).content }
{
    match member_at(view, k).content {
        Content::Section(section) => with_bits(view, section),
        Content::Pool(_) => None,
        Content::Got => None,
    }
}

/// The number of a section, if that has bytes in its file.
fn with_bits(view: &View, section: SecNo) -> Option<SecNo>
    requires { section < section_total (files_in view.now) }
    ensures { result ≡ (if by_view spec.has_bits view.now section then Some section else None) }
{
    if !has_bits(view, site_of(view.tables, section)) {
        return None;
    }
    Some(section)
}

/// The first relocation, in order of section and offset, that touches so many bytes of the file from an offset on and can't be done.
#[tactic(auto, unfolding(crate::specs::Relocated::touching_defects))]
fn first_defect(view: &View, from: u64, len: u64) -> Option<Defect>
    requires { from + len < 2 ^ 63 }
    ensures { IsFirst (by_view spec.touching_defects view.now from len) result }
{
    let last = members_before(view, from + len);
    let mut least = None;
    for k in members_past(view, from)..last {
        least = earlier(least, found_in(view, k, from, len));
    }
    match least {
        Some(found) => Some(found.defect),
        None => None,
    }
}

/// The first such relocation of a member, by its number.
fn found_in(view: &View, k: usize, from: u64, len: u64) -> Option<Found>
    requires block { from + len < 2 ^ 63 }
    requires member { k < length (laid_in view.now).members }
    ensures { IsFound (by_view spec.section_touching view.now from len)
        (by_view spec.written_in view.now (slice_index_or (laid_in view.now).members k no_member).content) result }
{
    let Some(section) = section_in(view, k) else {
        return None;
    };
    let Some(defect) = first_touching(view, &source_of(view, section), from, len) else {
        return None;
    };
    Some(Found { section, defect })
}
