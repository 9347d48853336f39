//! Unwind records and their relocations (LSB Core, "Exception Frames").

ghost use Rattle.std.specs.Prelude.{◌≡◌, ◌<◌, ◌+◌, ◌++◌, [], length, map, fold, option_map, IfOk, IfSome};
ghost use Rattle.std.specs.List.{position_or_len};
ghost use Rattle.std.specs.Option.{option_map_or};
ghost use Rattle.lk_tables.specs.BindingView.{binding_view};
ghost use Rattle.lk_tables.specs.Files.{section_total};
ghost use Rattle.lk_tables.specs.Frames.{AreInOrder, AreListsWithin, all_lists, frames_at, list_view, lists_of, no_record};
ghost use Rattle.lk_tables.specs.RecordViews.{record_view};
ghost use Rattle.lk_tables.specs.Records.{first_of, has_width};
ghost use Rattle.lk_tables.specs.Sites.{place_of};
ghost use Rattle.lk_tables.specs.TablesView.{files_of};
ghost use Rattle.sec_graph.specs.FrameRelocs as spec;
ghost use Rattle.sec_graph.specs.FrameKeys.{numbers_of};

use indexmap::IndexSet;
use lk_base::{FileNo, SecNo};
use lk_tables::{Binding, FrameNo, Frames, Record, Reloc, Tables, place_width};
use std::alloc::{AllocError, Global};

/// The FDEs of the functions of a section, in order.
pub fn fdes_of<'f>(
    tables: &Tables,
    binding: &Binding,
    frames: &'f Frames,
    section: usize,
) -> &'f [FrameNo]
    requires frames { spec.AreFramesOf (files_of tables.now) (binding_view binding.now) frames.now }
    requires section { section < section_total (files_of tables.now) }
    ensures { result.now ≡ frames_at (files_of tables.now) (binding_view binding.now) (all_lists (files_of tables.now)) section }
{
    frames.of_section(section)
}

/// A record that is there, after the number of its file.
pub fn found<'f>(
    tables: &Tables,
    frames: &'f Frames,
    number: FrameNo,
) -> Option<(FileNo, &'f Record)>
    requires { AreListsWithin (files_of tables.now) (lists_of frames.now) }
    ensures file { IfSome result (λ r. r.0 ≡ (place_of (files_of tables.now) number.section).file) }
    ensures within { IfSome result (λ r. r.0 < length (files_of tables.now)) }
    ensures is { spec.record_by (lists_of frames.now) number ≡ option_map_or (λ r. record_view r.1.now) result no_record }
{
    let held = frames.record(number)?;
    let file = tables.place_of(number.section).file;
    Some((file, held))
}

/// The relocations of a record, in order; none of a record that is not there.
pub fn relocs_of(frames: &Frames, number: FrameNo) -> &[Reloc]
    requires { AreInOrder (lists_of frames.now) }
    ensures { result.now ≡ (spec.record_by (lists_of frames.now) number).relocs }
{
    match frames.record(number) {
        Some(held) => held.relocs.as_slice(),
        None => &[],
    }
}

/// Where a record starts in its section, and its Length.
pub fn span_of(frames: &Frames, number: FrameNo) -> (u64, u64)
    requires { AreInOrder (lists_of frames.now) }
    ensures from { result.0 ≡ (spec.record_by (lists_of frames.now) number).from }
    ensures len { result.1 ≡ (spec.record_by (lists_of frames.now) number).len }
{
    match frames.record(number) {
        Some(held) => (held.from, held.len),
        None => (0, 0),
    }
}

/// The CIE of an FDE.
pub fn cie_of(frames: &Frames, fde: FrameNo) -> FrameNo
    requires { AreInOrder (lists_of frames.now) }
    ensures { result ≡ spec.cie_no (lists_of frames.now) fde }
{
    let section = fde.section;
    let Some(held) = frames.record(fde) else {
        return FrameNo { section, at: 0 };
    };
    match held.cie {
        Some(at) => FrameNo { section, at },
        None => FrameNo { section, at: 0 },
    }
}

/// The CIEs of FDEs by section and number, each once, in order of their first use.
#[tactic(auto, unfolding(crate::specs::FrameRelocs::cies_of))]
pub fn cies_of(
    alloc: Global,
    frames: &Frames,
    fdes: &[FrameNo],
) -> Result<IndexSet<(SecNo, u32)>, AllocError>
    requires { AreInOrder (lists_of frames.now) }
    ensures { IfOk result (λ cies. numbers_of cies ≡ spec.cies_of (lists_of frames.now) fdes.now) }
{
    let mut cies = IndexSet::new(alloc);
    for i in 0..fdes.len() {
        let cie = cie_of(frames, fdes[i]);
        cies.insert((cie.section, cie.at))?;
    }
    Ok(cies)
}

/// The first relocation that has bytes, which is that of an FDE's PC Begin.
#[tactic(auto, unfolding(lk_tables::specs::Records::first_of))]
pub fn first_of(relocs: &[Reloc]) -> Option<Reloc>
    ensures { result ≡ first_of relocs.now }
{
    for reloc in relocs {
        if 0 < place_width(reloc) {
            return Some(*reloc);
        }
    }
    None
}

/// How many relocations stand before the first that has bytes; all if none has.
fn count_before(relocs: &[Reloc]) -> usize
    ensures { result ≡ position_or_len has_width relocs.now }
{
    for i in 0..relocs.len() {
        if 0 < place_width(&relocs[i]) {
            return i;
        }
    }
    relocs.len()
}

/// The relocations of an FDE but that of PC Begin: those before and those after it.
#[tactic(auto, unfolding(crate::specs::FrameRelocs::others))]
pub fn others(relocs: &[Reloc]) -> (&[Reloc], &[Reloc])
    ensures { spec.others relocs.now ≡ result.0.now ++ result.1.now }
{
    let count = count_before(relocs);
    let before = &relocs[..count];
    if count < relocs.len() {
        return (before, &relocs[count + 1..]);
    }
    (before, &[])
}

/// Whether a relocation is one of these.
pub fn has_other(relocs: &[Reloc], reloc: &Reloc) -> bool
    ensures { result ≡ spec.has_reloc (spec.others relocs.now) reloc.now }
{
    let (before, after) = others(relocs);
    if has_reloc(before, reloc) {
        return true;
    }
    has_reloc(after, reloc)
}

/// How many these are.
pub fn others_len(relocs: &[Reloc]) -> u64
    ensures { result ≡ length (spec.others relocs.now) }
{
    if count_before(relocs) < relocs.len() {
        return relocs.len() as u64 - 1;
    }
    relocs.len() as u64
}

/// Whether a relocation is one of a list.
#[tactic(auto, unfolding(crate::specs::FrameRelocs::has_reloc))]
pub fn has_reloc(relocs: &[Reloc], reloc: &Reloc) -> bool
    ensures { result ≡ spec.has_reloc relocs.now reloc.now }
{
    for other in relocs {
        if same_reloc(reloc, other) {
            return true;
        }
    }
    false
}

fn same_reloc(reloc: &Reloc, other: &Reloc) -> bool
    ensures { result ≡ spec.same_reloc reloc.now other.now }
{
    reloc.offset == other.offset
        && (reloc.kind == other.kind
            && (reloc.symbol == other.symbol && reloc.addend == other.addend))
}

/// The records of a section, after its number, if it has some.
pub fn list_of(frames: &Frames, section: usize) -> Option<&(SecNo, Vec<Record>)>
    requires { AreInOrder (lists_of frames.now) }
    ensures { option_map (λ (l : _). list_view l.now) result ≡ spec.list_in (lists_of frames.now) section }
{
    let lists = frames.records.as_slice();
    let place = lists.partition_point(|list| (list.0 as usize) < section);
    let Some(list) = lists.get(place) else {
        return None;
    };
    let number = list.0 as usize;
    if number != section {
        return None;
    }
    Some(list)
}
