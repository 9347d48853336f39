//! The pieces of sections that are merged, found by the workers.

ghost use Rattle.std.specs.Prelude.{◌≡◌, ◌+◌, ◌-◌, ◌<◌, ◌≤◌, ◌^◌, ◌++◌, ◌∷◌, [], length, map, take, drop, IfOk, OnOk, if◌then◌else◌, All};
ghost use Rattle.lk_tables.specs.TablesView.{files_of};
ghost use Rattle.lk_tables.specs.Names as names;
ghost use Rattle.lk_tables.specs.Sections.{contents_of};
ghost use Rattle.link_sections.specs.MergeSections as spec;
ghost use Rattle.link_sections.specs.Merging.{site_pieces};
ghost use Rattle.intern_race.specs.Texts.{cut_texts};
ghost use Rattle.work_split.specs.Shares.{IsShare};
ghost use Rattle.str_merge.specs.Cutting.{IsCutAt, no_defects};
ghost use Rattle.str_merge.specs.Sites.{IsIn, cut_views, pieces_of, site_view, site_views, texts_of};
ghost use Rattle.str_merge.specs.Small.{IsNear, IsShort};

use crate::sections::is_zero_char;
use crate::sites::Site;
use lk_base::abi::SHF_STRINGS;
use lk_base::{FileNo, LinkStop};
use lk_tables::{Section, Span, Tables, text_of};
use memchr::memchr_iter;
use std::alloc::{AllocError, Global};
use std::ops::Range;
use std::thread::Threads;
use work_split::{Gate, over_shares, pieces_by_weight};

/// Room is made for strings of so many bytes: for shorter ones the list grows. Memory that no string takes is not touched.
const USUAL: usize = 16;

/// A section that is cut into its pieces, which stand one after the other.
#[derive(Drop)]
pub struct Cut<'a> {
    /// Where it stands in its file.
    pub whole: Span,
    /// Its bytes.
    pub bytes: &'a [u8],
    /// Where each piece ends, in bytes from the start of the section.
    pub ends: Vec<u32>,
}

/// Sections that are merged, cut into their pieces.
pub fn cut_sites<'a, R: Threads + Sync, G: Gate>(
    rt: &R,
    alloc: Global,
    tables: &Tables<'a>,
    sites: &[Site],
    workers: u32,
    gate: &G,
) -> Result<Vec<Cut<'a>>, AllocError>
    requires some { 1 ≤ workers }
    requires most { workers ≤ 64 }
    requires files { All (λ (s : _). s.file < length (files_of tables.now)) sites.now }
    requires short { All (λ (s : _). IsShort (files_of tables.now) (site_view s)) sites.now }
    ensures pieces { IfOk result (λ cuts. cut_views cuts.items ≡ map (site_pieces (files_of tables.now)) (site_views sites.now)) }
    ensures files { IfOk result (λ cuts. All (IsIn (files_of tables.now)) cuts.items) }
    ensures near { IfOk result (λ cuts. All IsNear cuts.items) }
{
    let weights = weights_of(alloc, tables, sites)?;
    let pieces = pieces_by_weight(alloc, weights.as_slice(), workers)?;
    let cuts = over_shares(
        rt,
        alloc,
        gate,
        pieces.as_slice(),
        |piece: Range<usize>| -> Result<Vec<Cut>, LinkStop>
            requires files { All (λ (s : _). s.file < length (files_of tables.now)) sites.now }
            requires short { All (λ (s : _). IsShort (files_of tables.now) (site_view s)) sites.now }
            requires ordered { piece.start ≤ piece.end }
            requires within { piece.end ≤ length sites.now }
            ensures { IsShare no_defects (IsCutAt (files_of tables.entry.now) (site_views sites.entry.now)) piece.start piece.end result }
        { cut_share(alloc, tables, sites, piece) },
    );
    match cuts {
        Ok(cuts) => Ok(cuts),
        Err(_) => Err(AllocError),
    }
}

/// The bytes of each of these sections.
fn weights_of(alloc: Global, tables: &Tables, sites: &[Site]) -> Result<Vec<u64>, AllocError>
    requires files { All (λ (s : _). s.file < length (files_of tables.now)) sites.now }
    ensures { IfOk result (λ weights. length weights.items ≡ length sites.now) }
{
    let mut weights = Vec::with_capacity(alloc, sites.len())?;
    for i in 0..sites.len() {
        let site = &sites[i];
        let section = tables.file(site.file).section(site.index as usize);
        weights.push(section.size)?;
    }
    Ok(weights)
}

/// The sections of one share, cut.
fn cut_share<'a>(
    alloc: Global,
    tables: &Tables<'a>,
    sites: &[Site],
    share: Range<usize>,
) -> Result<Vec<Cut<'a>>, LinkStop>
    requires files { All (λ (s : _). s.file < length (files_of tables.now)) sites.now }
    requires short { All (λ (s : _). IsShort (files_of tables.now) (site_view s)) sites.now }
    requires ordered { share.start ≤ share.end }
    requires within { share.end ≤ length sites.now }
    ensures { IsShare no_defects (IsCutAt (files_of tables.now) (site_views sites.now)) share.start share.end result }
{
    let mut cuts = Vec::with_capacity(alloc, share.end - share.start)?;
    for at in share.start..share.end {
        let cut = cut_site(alloc, tables, &sites[at])?;
        cuts.push(cut)?;
    }
    Ok(cuts)
}

/// A section, cut.
fn cut_site<'a>(alloc: Global, tables: &Tables<'a>, site: &Site) -> Result<Cut<'a>, AllocError>
    requires file { site.now.file < length (files_of tables.now) }
    requires short { IsShort (files_of tables.now) (site_view site.now) }
    ensures pieces { IfOk result (λ cut. texts_of (pieces_of cut) ≡ site_pieces (files_of tables.now) (site_view site.now)) }
    ensures file { IfOk result (IsIn (files_of tables.now)) }
    ensures near { IfOk result IsNear }
{
    let file = tables.file(site.file);
    let section = file.section(site.index as usize);
    let cut = cut_section(alloc, file.bytes(), &section, site.file)?;
    Ok(cut)
}

/// A section of a file of these bytes, cut.
#[tactic(auto, unfolding(link_sections::specs::MergeSections::section_pieces, lk_tables::specs::Names::text_of))]
fn cut_section<'a>(
    alloc: Global,
    bytes: &'a [u8],
    section: &Section,
    file: FileNo,
) -> Result<Cut<'a>, AllocError>
    requires { length (contents_of bytes.now section.now) < 2 ^ 31 }
    ensures pieces { IfOk result (λ cut. texts_of (pieces_of cut) ≡ spec.section_pieces bytes.now section.now) }
    ensures bytes { IfOk result (λ cut. cut.bytes.now ≡ names.text_of bytes.now cut.whole) }
    ensures file { IfOk result (λ cut. cut.whole.file ≡ file) }
    ensures from { IfOk result (λ cut. cut.whole.from ≡ section.now.offset) }
    ensures len { IfOk result (λ cut. length cut.bytes.now < 2 ^ 31) }
{
    let whole = Span {
        file,
        from: section.offset,
        len: section.size,
    };
    let contents = text_of(bytes, &whole);
    let are_strings = section.flags & SHF_STRINGS != 0;
    let ends = ends_of(alloc, contents, are_strings, section.entsize as usize)?;
    Ok(Cut {
        whole,
        bytes: contents,
        ends,
    })
}

/// Where the pieces of a section of these bytes end: strings of characters of a size, or elements of one.
fn ends_of(
    alloc: Global,
    contents: &[u8],
    are_strings: bool,
    size: usize,
) -> Result<Vec<u32>, AllocError>
    requires { length contents.now < 2 ^ 31 }
    ensures { IfOk result (λ ends. cut_texts contents.now ends.items ≡ (if are_strings then spec.strings_from [] (spec.elements size contents.now) else spec.elements size contents.now)) }
{
    if size == 0 {
        return Ok(Vec::new(alloc));
    }
    if are_strings {
        let ends = string_ends(alloc, contents, size)?;
        return Ok(ends);
    }
    let ends = element_ends(alloc, contents, size)?;
    Ok(ends)
}

/// Where elements of a size end.
#[tactic(auto, unfolding(link_sections::specs::MergeSections::elements))]
fn element_ends(alloc: Global, contents: &[u8], size: usize) -> Result<Vec<u32>, AllocError>
    requires some { 1 ≤ size }
    requires short { length contents.now < 2 ^ 32 }
    ensures { IfOk result (λ ends. cut_texts contents.now ends.items ≡ spec.elements size contents.now) }
{
    let count = contents.len() / size;
    let mut ends = Vec::with_capacity(alloc, count)?;
    for i in 0..count {
        ends.push((i * size + size) as u32)?;
    }
    Ok(ends)
}

/// Where strings of characters of a size end, each with the zero character that ends it.
fn string_ends(alloc: Global, contents: &[u8], size: usize) -> Result<Vec<u32>, AllocError>
    requires some { 1 ≤ size }
    requires short { length contents.now < 2 ^ 32 }
    ensures { IfOk result (λ ends. cut_texts contents.now ends.items ≡ spec.strings_from [] (spec.elements size contents.now)) }
{
    if size == 1 {
        return byte_string_ends(alloc, contents);
    }
    let mut ends = Vec::new(alloc);
    for i in 0..contents.len() / size {
        push_end(&mut ends, contents, i * size, i * size + size)?;
    }
    Ok(ends)
}

/// Where strings of bytes end, each with the zero that ends it: a vector search finds the zeros.
fn byte_string_ends(alloc: Global, contents: &[u8]) -> Result<Vec<u32>, AllocError>
    requires { length contents.now < 2 ^ 32 }
    ensures { IfOk result (λ ends. cut_texts contents.now ends.items ≡ spec.strings_from [] (spec.elements 1 contents.now)) }
{
    let mut ends = Vec::with_capacity(alloc, contents.len() / USUAL)?;
    let mut found = memchr_iter(0, contents);
    'places: while let Some(at) = found.next() {
        ends.push((at + 1) as u32)?;
    }
    Ok(ends)
}

/// Adds the end of a string if the character at `at` ends it.
fn push_end(ends: &mut Vec<u32>, contents: &[u8], at: usize, end: usize) -> Result<(), AllocError>
    requires char { at ≤ end }
    requires within { end ≤ length contents.now }
    requires short { length contents.now < 2 ^ 32 }
    ensures { OnOk result (ends.new.items ≡ ends.old.items ++ (if spec.is_zero_char (take (end - at) (drop at contents.now)) then end ∷ [] else [])) }
{
    if is_zero_char(&contents[at..end]) {
        ends.push(end as u32)?;
    }
    Ok(())
}
