//! Which relocations of unwind records kept functions need (LSB Core, "Exception Frames").

ghost use Rattle.std.specs.Prelude.{◌≡◌, ◌<◌, length};
ghost use Rattle.std.specs.List.Sorted.{IsNonDecreasingBy};
ghost use Rattle.lk_tables.specs.BindingView.{binding_view};
ghost use Rattle.lk_tables.specs.Frames.{owner_in, section_of_spot};
ghost use Rattle.lk_tables.specs.RecordViews.{record_view, record_views};
ghost use Rattle.lk_tables.specs.TablesView.{files_of};
ghost use Rattle.lk_tables.specs.declared.records.Record.{Record as RecordOf};
ghost use Rattle.sec_graph.specs.FrameRelocs.{AreFramesOf, has_reloc};
ghost use Rattle.sec_graph.specs.Needs as steps;
ghost use Rattle.sec_graph.specs.Undefined as spec;

use crate::frame_relocs::{first_of, has_other, has_reloc, list_of};
use link_sections::is_kept;
use lk_base::FileNo;
use lk_tables::{Binding, Frames, Record, Reloc, Spot, Tables, spot_in};

/// Whether a relocation of a section's unwind records is needed: it is of an FDE of a kept function, and not that of PC Begin, or of the CIE of
/// such an FDE. Other FDEs are looked at only for a relocation of a CIE.
pub fn is_needed(
    tables: &Tables,
    binding: &Binding,
    kept: &[bool],
    frames: &Frames,
    section: usize,
    reloc: &Reloc,
) -> bool
    requires { AreFramesOf (files_of tables.now) (binding_view binding.now) frames.now }
    ensures { result ≡ has_reloc (spec.needed_relocs (files_of tables.now) (binding_view binding.now) kept.now section) reloc.now }
{
    let Some(list) = list_of(frames, section) else {
        return false;
    };
    if binding.is_discarded(section) {
        return false;
    }
    let records = list.1.as_slice();
    let count = count_upto(records, reloc.offset);
    if count == 0 {
        return false;
    }
    let file = tables.place_of(list.0).file;
    needs(tables, binding, kept, file, records, count - 1, reloc)
}

/// How many records start at an offset or before it, of records in order.
fn count_upto(records: &[Record], offset: u64) -> usize
    requires { IsNonDecreasingBy (λ (r : RecordOf). r.from) records.now }
    ensures { steps.IsCountUpto (record_views records.now) offset result }
{
    records.partition_point(|record| record.from <= offset)
}

/// Whether kept functions need a relocation of the record of a number.
#[tactic(auto, unfolding(crate::specs::Needs::needs))]
fn needs(
    tables: &Tables,
    binding: &Binding,
    kept: &[bool],
    file: FileNo,
    records: &[Record],
    at: usize,
    reloc: &Reloc,
) -> bool
    requires file { file < length (files_of tables.now) }
    requires at { at < length records.now }
    ensures { result ≡ steps.needs (files_of tables.now) (binding_view binding.now) kept.now file (record_views records.now) at reloc.now }
{
    let entry = &records[at];
    if entry.cie.is_none() {
        return has_reloc(entry.relocs.as_slice(), reloc)
            && is_used(tables, binding, kept, file, records, at);
    }
    has_other(entry.relocs.as_slice(), reloc) && is_of_kept(tables, binding, kept, file, entry)
}

/// Whether an FDE of a kept function has the CIE of a number.
fn is_used(
    tables: &Tables,
    binding: &Binding,
    kept: &[bool],
    file: FileNo,
    records: &[Record],
    cie: usize,
) -> bool
    requires { file < length (files_of tables.now) }
    ensures { result ≡ steps.is_used (files_of tables.now) (binding_view binding.now) kept.now file (record_views records.now) cie }
{
    for entry in records {
        if uses(tables, binding, kept, file, entry, cie) {
            return true;
        }
    }
    false
}

/// Whether a record is an FDE of a kept function and has the CIE of a number.
fn uses(
    tables: &Tables,
    binding: &Binding,
    kept: &[bool],
    file: FileNo,
    entry: &Record,
    cie: usize,
) -> bool
    requires { file < length (files_of tables.now) }
    ensures { result ≡ steps.uses (files_of tables.now) (binding_view binding.now) kept.now file cie (record_view entry.now) }
{
    let Some(own) = entry.cie else {
        return false;
    };
    own as usize == cie && is_of_kept(tables, binding, kept, file, entry)
}

/// Whether a record is an FDE of a kept function.
#[tactic(auto, unfolding(lk_tables::specs::Frames::owner_in))]
fn is_of_kept(
    tables: &Tables,
    binding: &Binding,
    kept: &[bool],
    file: FileNo,
    entry: &Record,
) -> bool
    requires { file < length (files_of tables.now) }
    ensures { result ≡ spec.is_kept_owner kept.now (owner_in (files_of tables.now) (binding_view binding.now) file (record_view entry.now)) }
{
    if entry.cie.is_none() {
        return false;
    }
    let Some(first) = first_of(entry.relocs.as_slice()) else {
        return false;
    };
    is_in_kept(kept, spot_in(tables, binding, file, &first))
}

/// Whether a target stands in a kept section.
fn is_in_kept(kept: &[bool], target: Spot) -> bool
    ensures { result ≡ spec.is_kept_owner kept.now (section_of_spot target) }
{
    match target {
        Spot::Section {
            section,
            offset: _,
            rest: _,
        } => is_kept(kept, section as usize),
        Spot::Number(_) => false,
        Spot::Zero => false,
        Spot::Linker(_) => false,
        Spot::Unbound => false,
    }
}
