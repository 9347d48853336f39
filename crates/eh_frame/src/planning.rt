//! Which unwind records are written, and in which order.

ghost use Rattle.std.specs.Prelude.{◌≡◌, ℕ, ◌+◌, ◌-◌, ◌*◌, ◌^◌, ◌<◌, ◌≤◌, ◌==◌, ◌++◌, [], ◌∷◌, None, not, if◌then◌else◌, length, map, min, slice_index_or, IfOk, OnOk};
ghost use Rattle.std.specs.List.{list_any, position_or_len, sum_by};
ghost use Rattle.lk_tables.specs.BindingView.{binding_view};
ghost use Rattle.lk_tables.specs.FramePlans.{plan_view};
ghost use Rattle.lk_tables.specs.Frames as frame_lists;
ghost use Rattle.lk_tables.specs.RecordViews.{record_view};
ghost use Rattle.lk_tables.specs.Sites.{place_of};
ghost use Rattle.lk_tables.specs.TablesView.{files_of};
ghost use Rattle.link_sections.specs.PoolViews.{merged_views};
ghost use Rattle.eh_frame.specs.Laws.{IsPlanned, IsSmall};
ghost use Rattle.eh_frame.specs.Owners.{owners_in};
ghost use Rattle.eh_frame.specs.Plan as spec;
ghost use Rattle.eh_frame.specs.Uses as steps;

use crate::cies::cie_text;
use crate::owners::{find_owners, owner_by, owners_at};
use indexmap::IndexSet;
use link_sections::{Pools, leads};
use lk_base::SecNo;
use lk_tables::{Binding, FrameNo, FramePlan, Frames, Record, Tables};
use std::alloc::{AllocError, Global};
use std::thread::Threads;
use work_split::Gate;

/// CIEs of which no two say the same, and the bytes that tell each from others.
#[derive(Drop)]
struct Firsts {
    cies: Vec<FrameNo>,
    texts: IndexSet<Vec<u8>>,
}

/// The FDEs that are written, of each of these the number of its CIE, and the CIEs by their first use.
#[derive(Drop)]
struct Uses {
    fdes: Vec<FrameNo>,
    uses: Vec<usize>,
    firsts: Firsts,
}

/// Which unwind records of a link are written, and in which order: the FDEs of functions in sections whose own bytes are written, and
/// before them their CIEs, of which those that have the same bytes and stand for the same are one. So many workers find which functions the
/// FDEs are for. The only error is out of memory.
#[tactic(auto, unfolding(crate::specs::Plan::plan_of, crate::specs::Plan::written_cies))]
pub fn plan<'t, R: Threads + Sync, G: Gate>(
    rt: &R,
    alloc: Global,
    tables: &Tables,
    binding: &Binding,
    pools: &Pools,
    frames: &'t Frames,
    leaders: &[Option<SecNo>],
    workers: u32,
    gate: &G,
) -> Result<FramePlan<'t>, AllocError>
    requires some { 1 ≤ workers }
    requires most { workers ≤ 64 }
    requires lists { frame_lists.lists_of frames.now ≡ frame_lists.all_lists (files_of tables.now) }
    requires within { frame_lists.AreListsWithin (files_of tables.now) (frame_lists.lists_of frames.now) }
    ensures plan { IfOk result (λ plan. plan_view plan ≡ spec.plan_of (files_of tables.now) (binding_view binding.now) (merged_views pools.now) (frame_lists.lists_of frames.now) leaders.now) }
    ensures laws { IfOk result (λ plan. IsPlanned (files_of tables.now) (binding_view binding.now) (merged_views pools.now) (frame_lists.lists_of frames.now) leaders.now (plan_view plan)) }
    ensures lent { IfOk result (λ plan. plan.frames.now ≡ frames.now) }
    ensures small { IfOk result (λ plan. IsSmall (plan_view plan)) }
{
    tables.prove_few();
    let Uses { fdes, uses, firsts } = shared_uses(
        rt, alloc, tables, binding, pools, frames, leaders, workers, gate,
    )?;
    let Firsts {
        cies,
        texts: _texts,
    } = firsts;
    let frame_len = frame_len(frames, cies.as_slice(), fdes.as_slice());
    let header_len = header_len(fdes.len());
    Ok(FramePlan {
        frames,
        cies,
        fdes,
        uses,
        frame_len,
        header_len,
    })
}

/// The FDEs that are written and the CIEs that they use. The workers find which functions the FDEs are for.
fn shared_uses<R: Threads + Sync, G: Gate>(
    rt: &R,
    alloc: Global,
    tables: &Tables,
    binding: &Binding,
    pools: &Pools,
    frames: &Frames,
    leaders: &[Option<SecNo>],
    workers: u32,
    gate: &G,
) -> Result<Uses, AllocError>
    requires some { 1 ≤ workers }
    requires most { workers ≤ 64 }
    requires within { frame_lists.AreListsWithin (files_of tables.now) (frame_lists.lists_of frames.now) }
    ensures { IfOk result (steps.AreUses (spec.cie_key (files_of tables.now) (binding_view binding.now) (merged_views pools.now) (frame_lists.lists_of frames.now)) (spec.cie_no (frame_lists.lists_of frames.now)) (spec.written_fdes (files_of tables.now) (binding_view binding.now) (merged_views pools.now) (frame_lists.lists_of frames.now) leaders.now)) }
{
    let lists = frames.records.as_slice();
    let found = find_owners(rt, alloc, tables, binding, lists, workers, gate)?;
    let owners = found.as_slice();
    find_uses(alloc, tables, binding, pools, frames, leaders, owners)
}

/// The FDEs that are written and the CIEs that they use, where it is known which functions the records of each list are for.
fn find_uses(
    alloc: Global,
    tables: &Tables,
    binding: &Binding,
    pools: &Pools,
    frames: &Frames,
    leaders: &[Option<SecNo>],
    owners: &[Vec<Option<SecNo>>],
) -> Result<Uses, AllocError>
    requires within { frame_lists.AreListsWithin (files_of tables.now) (frame_lists.lists_of frames.now) }
    requires owners { map (λ (list : _). list.items) owners.now ≡ map (owners_in (files_of tables.now) (binding_view binding.now)) (frame_lists.lists_of frames.now) }
    ensures { IfOk result (steps.AreUses (spec.cie_key (files_of tables.now) (binding_view binding.now) (merged_views pools.now) (frame_lists.lists_of frames.now)) (spec.cie_no (frame_lists.lists_of frames.now)) (spec.written_fdes (files_of tables.now) (binding_view binding.now) (merged_views pools.now) (frame_lists.lists_of frames.now) leaders.now)) }
{
    let mut found = no_uses(alloc);
    for number in 0..frames.records.len() {
        let list = &frames.records[number];
        push_section(
            alloc,
            tables,
            binding,
            pools,
            leaders,
            list.0,
            list.1.as_slice(),
            owners_at(owners, number),
            &mut found,
        )?;
    }
    Ok(found)
}

/// Nothing yet.
fn no_uses(alloc: Global) -> Uses
    ensures { steps.AreNone result }
{
    Uses {
        fdes: Vec::new(alloc),
        uses: Vec::new(alloc),
        firsts: Firsts {
            cies: Vec::new(alloc),
            texts: IndexSet::new(alloc),
        },
    }
}

/// Adds the FDEs of one section that are written.
fn push_section(
    alloc: Global,
    tables: &Tables,
    binding: &Binding,
    pools: &Pools,
    leaders: &[Option<SecNo>],
    section: SecNo,
    records: &[Record],
    owners: &[Option<SecNo>],
    found: &mut Uses,
) -> Result<(), AllocError>
    requires list { frame_lists.IsListWithin (files_of tables.now) (steps.list_in section records.now) }
    requires owners { owners.now ≡ owners_in (files_of tables.now) (binding_view binding.now) (steps.list_in section records.now) }
    ensures { OnOk result (steps.AddsList (files_of tables.now) (binding_view binding.now) (merged_views pools.now) leaders.now (steps.list_in section records.now) found.old found.new) }
{
    if binding.is_discarded(section as usize) {
        return Ok(());
    }
    let mut known = none_known(alloc, records.len())?;
    for at in 0..records.len() {
        push_record(
            alloc,
            tables,
            binding,
            pools,
            leaders,
            section,
            records,
            owners,
            at,
            known.as_mut_slice(),
            found,
        )?;
    }
    Ok(())
}

/// For so many records that no number is known.
fn none_known(alloc: Global, count: usize) -> Result<Vec<Option<usize>>, AllocError>
    ensures len { IfOk result (λ known. length known.items ≡ count) }
    ensures none { IfOk result (λ known. (k : ℕ) → slice_index_or known.items k None ≡ None) }
{
    let mut known = Vec::new(alloc);
    known.resize(count, None)?;
    Ok(known)
}

/// Adds one record, if it is an FDE that is written. For the CIEs of its section `known` has their numbers, where they were looked for.
fn push_record(
    alloc: Global,
    tables: &Tables,
    binding: &Binding,
    pools: &Pools,
    leaders: &[Option<SecNo>],
    section: SecNo,
    records: &[Record],
    owners: &[Option<SecNo>],
    at: usize,
    known: &mut [Option<usize>],
    found: &mut Uses,
) -> Result<(), AllocError>
    requires owners { owners.now ≡ owners_in (files_of tables.now) (binding_view binding.now) (steps.list_in section records.now) }
    requires list { frame_lists.IsListWithin (files_of tables.now) (steps.list_in section records.now) }
    requires at { at < length records.now }
    requires known { length known.old ≡ length records.now }
    ensures { OnOk result (steps.AddsRecord (files_of tables.now) (binding_view binding.now) (merged_views pools.now) leaders.now (steps.list_in section records.now) at known.old known.new found.old found.new) }
{
    let Some(cie) = used_cie(
        tables,
        binding,
        pools,
        leaders,
        section,
        &records[at],
        owner_by(owners, at),
    ) else {
        return Ok(());
    };
    let number = number_of(
        alloc,
        tables,
        binding,
        pools,
        section,
        records,
        cie,
        known,
        &mut found.firsts,
    )?;
    found.fdes.push(FrameNo {
        section,
        at: at as u32,
    })?;
    found.uses.push(number)?;
    Ok(())
}

/// The number of the CIE of a record of a section, which is for a function of a section, if that is an FDE that is written.
fn used_cie(
    tables: &Tables,
    binding: &Binding,
    pools: &Pools,
    leaders: &[Option<SecNo>],
    section: SecNo,
    unwind_record: &Record,
    owner: Option<SecNo>,
) -> Option<u32>
    requires { owner ≡ frame_lists.owner_in (files_of tables.now) (binding_view binding.now) (place_of (files_of tables.now) section).file (record_view unwind_record.now) }
    ensures { result ≡ steps.used_cie (files_of tables.now) (binding_view binding.now) (merged_views pools.now) leaders.now (place_of (files_of tables.now) section).file (record_view unwind_record.now) }
{
    let Some(owner) = owner else {
        return None;
    };
    if !is_in_place(pools, leaders, owner) {
        return None;
    }
    unwind_record.cie
}

/// Whether a section's own bytes are written: it is its own leader, or it is merged, and they stand in a pool.
fn is_in_place(pools: &Pools, leaders: &[Option<SecNo>], section: SecNo) -> bool
    ensures { result ≡ spec.is_in_place leaders.now (merged_views pools.now) section }
{
    leads(leaders, section as usize) || pools.is_merged(section)
}

/// The number of a CIE of a section among those that differ. What it says is looked at once.
fn number_of(
    alloc: Global,
    tables: &Tables,
    binding: &Binding,
    pools: &Pools,
    section: SecNo,
    records: &[Record],
    cie: u32,
    known: &mut [Option<usize>],
    firsts: &mut Firsts,
) -> Result<usize, AllocError>
    requires list { frame_lists.IsListWithin (files_of tables.now) (steps.list_in section records.now) }
    requires cie { cie < length records.now }
    requires known { length known.old ≡ length records.now }
    ensures { IfOk result (λ n. steps.Numbers (files_of tables.now) (binding_view binding.now) (merged_views pools.now) (steps.list_in section records.now) cie n known.old known.new firsts.old firsts.new) }
{
    if let Some(number) = known_number(known, cie) {
        return Ok(number);
    }
    let text = cie_text(
        alloc,
        tables,
        binding,
        pools,
        section,
        &records[cie as usize],
    )?;
    let number = note_cie(firsts, FrameNo { section, at: cie }, text)?;
    known[cie as usize] = Some(number);
    Ok(number)
}

/// The number that is known of a CIE.
fn known_number(known: &[Option<usize>], cie: u32) -> Option<usize>
    ensures { result ≡ slice_index_or known.now cie None }
{
    match known.get(cie as usize) {
        Some(number) => *number,
        None => None,
    }
}

/// The number of a CIE with these bytes; if none has them, it is a new one.
fn note_cie(firsts: &mut Firsts, cie: FrameNo, text: Vec<u8>) -> Result<usize, AllocError>
    ensures number { IfOk result (λ n. n ≡ position_or_len (steps.has_text text.items) firsts.old.texts.keys) }
    ensures cies { OnOk result (firsts.new.cies.items ≡ firsts.old.cies.items ++ (if not (list_any (steps.has_text text.items) firsts.old.texts.keys) then cie ∷ [] else [])) }
    ensures texts { OnOk result (firsts.new.texts.keys ≡ (if list_any (steps.has_text text.items) firsts.old.texts.keys then firsts.old.texts.keys else firsts.old.texts.keys ++ text ∷ [])) }
{
    let (number, is_new) = firsts.texts.insert_full(text)?;
    push_if(&mut firsts.cies, is_new, cie)?;
    Ok(number)
}

/// Adds a CIE, if it is wanted.
fn push_if(cies: &mut Vec<FrameNo>, wanted: bool, cie: FrameNo) -> Result<(), AllocError>
    ensures { OnOk result (cies.new.items ≡ cies.old.items ++ (if wanted then cie ∷ [] else [])) }
{
    if wanted {
        cies.push(cie)?;
    }
    Ok(())
}

/// Bytes of these records and of a Length of 0 after them; 0 if there is no FDE.
fn frame_len(frames: &Frames, cies: &[FrameNo], fdes: &[FrameNo]) -> u64
    requires order { frame_lists.AreInOrder (frame_lists.lists_of frames.now) }
    requires cies_most { sum_by (spec.size_of (frame_lists.lists_of frames.now)) cies.now ≤ 2 ^ 59 }
    requires fdes_most { sum_by (spec.size_of (frame_lists.lists_of frames.now)) fdes.now ≤ 2 ^ 59 }
    ensures { result ≡ spec.frame_len_of (frame_lists.lists_of frames.now) fdes.now cies.now }
{
    if fdes.len() == 0 {
        return 0;
    }
    let start = with_sizes(frames, cies, 4);
    with_sizes(frames, fdes, start)
}

/// So many bytes and those of these records.
fn with_sizes(frames: &Frames, records: &[FrameNo], start: u64) -> u64
    requires order { frame_lists.AreInOrder (frame_lists.lists_of frames.now) }
    requires room { start + sum_by (spec.size_of (frame_lists.lists_of frames.now)) records.now < 2 ^ 64 }
    ensures { result ≡ start + sum_by (spec.size_of (frame_lists.lists_of frames.now)) records.now }
{
    let mut len = start;
    for number in records {
        let size = size_of(frames, *number);
        len += size;
    }
    len
}

/// Bytes of a record.
pub fn size_of(frames: &Frames, number: FrameNo) -> u64
    requires { frame_lists.AreInOrder (frame_lists.lists_of frames.now) }
    ensures { result ≡ min (spec.size_of (frame_lists.lists_of frames.now) number) (2 ^ 64 - 1) }
{
    match frames.record(number) {
        Some(record) => record.len.saturating_add(4),
        None => 4,
    }
}

/// Bytes of the table of so many functions; 0 if there is none.
fn header_len(count: usize) -> u64
    requires { count < 2 ^ 60 }
    ensures { result ≡ (if count == 0 then 0 else 12 + 8 * count) }
{
    if count == 0 {
        return 0;
    }
    12 + 8 * count as u64
}
