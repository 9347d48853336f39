//! Which function each FDE is for. The lists of records are shared among workers; what they find is noted by section after that.

ghost use Rattle.std.specs.Prelude.{◌≡◌, ◌-◌, ◌^◌, ◌<◌, ◌≤◌, ◌++◌, None, [], length, map, replicate, slice_index_or, take, drop, IfOk, OnOk};
ghost use Rattle.std.specs.List.{All};
ghost use Rattle.lk_tables.specs.BindingView.{binding_view};
ghost use Rattle.lk_tables.specs.Files.{section_total};
ghost use Rattle.lk_tables.specs.TablesView.{files_of};
ghost use Rattle.lk_tables.specs.Frames as spec;
ghost use Rattle.lk_tables.specs.Frames.{RecordList};
ghost use Rattle.eh_frame.specs.Owners.{lists_after, owners_in, with_frame};
ghost use Rattle.lk_tables.specs.RecordViews.{record_view};
ghost use Rattle.lk_tables.specs.declared.records.Record.{Record as RecordOf};

use crate::reading::first_of;
use crate::sharing::run_of;
use lk_base::{FileNo, LinkStop, SecNo};
use lk_tables::{Binding, FrameNo, Frames, Record, Spot, Tables, spot_in};
use std::alloc::{AllocError, Global};
use std::ops::Range;
use std::thread::Threads;
use work_split::{Gate, over_shares, pieces_of_least};

/// Fewer lists of records are not worth a thread.
const LEAST: usize = 64;

/// Which FDEs each section's functions have, of the records of all sections `.eh_frame` of the files that take part, in order of section
/// number; the lists are handed on. So many workers share them. The only error is out of memory.
#[tactic(auto, unfolding(lk_tables::specs::Frames::all_frames))]
pub fn table<R: Threads + Sync, G: Gate>(
    rt: &R,
    alloc: Global,
    tables: &Tables,
    binding: &Binding,
    records: Vec<(SecNo, Vec<Record>)>,
    workers: u32,
    gate: &G,
) -> Result<Frames, AllocError>
    requires some { 1 ≤ workers }
    requires most { workers ≤ 64 }
    requires sections { All (λ (l : RecordList). l.section < section_total (files_of tables.now)) (spec.list_views records.items) }
    requires few { All (λ (l : RecordList). length l.records < 2 ^ 32) (spec.list_views records.items) }
    ensures lists { IfOk result (λ frames. spec.lists_of frames ≡ spec.list_views records.items) }
    ensures of { IfOk result (λ frames. spec.frames_by_section frames ≡ spec.all_frames (files_of tables.now) (binding_view binding.now) (spec.list_views records.items)) }
{
    let lists = records.as_slice();
    let found = find_owners(rt, alloc, tables, binding, lists, workers, gate)?;
    let owners = found.as_slice();
    let mut of = no_frames(alloc, tables.section_count())?;
    for number in 0..lists.len() {
        push_list(
            tables,
            binding,
            &lists[number],
            owners_at(owners, number),
            &mut of,
        )?;
    }
    Ok(Frames { records, of })
}

/// The sections whose functions the records of some lists are for, list by list. The workers each find those of a run of lists.
pub fn find_owners<R: Threads + Sync, G: Gate>(
    rt: &R,
    alloc: Global,
    tables: &Tables,
    binding: &Binding,
    lists: &[(SecNo, Vec<Record>)],
    workers: u32,
    gate: &G,
) -> Result<Vec<Vec<Option<SecNo>>>, AllocError>
    requires some { 1 ≤ workers }
    requires most { workers ≤ 64 }
    requires sections { All (λ (l : RecordList). l.section < section_total (files_of tables.now)) (spec.list_views lists.now) }
    ensures { IfOk result (λ owners. map (λ (list : _). list.items) owners.items ≡ map (owners_in (files_of tables.now) (binding_view binding.now)) (spec.list_views lists.now)) }
{
    let pieces = pieces_of_least(alloc, lists.len(), LEAST, workers)?;
    let found = over_shares(
        rt,
        alloc,
        gate,
        pieces.as_slice(),
        |piece: Range<usize>| -> Result<Vec<Vec<Option<SecNo>>>, LinkStop>
            requires ordered { piece.start ≤ piece.end }
            requires within { piece.end ≤ length lists.now }
            requires sections { All (λ (l : RecordList). l.section < section_total (files_of tables.now)) (spec.list_views lists.now) }
            ensures { IfOk result (λ owners. map (λ (list : _). list.items) owners.items ≡ map (λ (list : _). owners_in (files_of tables.entry.now) (binding_view binding.entry.now) (spec.list_view list)) (take (piece.end - piece.start) (drop piece.start lists.entry.now))) }
        { Ok(owners_in_run(alloc, tables, binding, lists, piece)?) },
    );
    match found {
        Ok(owners) => Ok(owners),
        Err(_) => Err(AllocError),
    }
}

/// The sections whose functions the records of a run of lists are for.
fn owners_in_run(
    alloc: Global,
    tables: &Tables,
    binding: &Binding,
    lists: &[(SecNo, Vec<Record>)],
    piece: Range<usize>,
) -> Result<Vec<Vec<Option<SecNo>>>, AllocError>
    requires ordered { piece.start ≤ piece.end }
    requires within { piece.end ≤ length lists.now }
    requires sections { All (λ (l : RecordList). l.section < section_total (files_of tables.now)) (spec.list_views lists.now) }
    ensures { IfOk result (λ owners. map (λ (list : _). list.items) owners.items ≡ map (λ (list : _). owners_in (files_of tables.now) (binding_view binding.now) (spec.list_view list)) (take (piece.end - piece.start) (drop piece.start lists.now))) }
{
    let own = run_of(lists, piece.start, piece.end);
    owners_of(alloc, tables, binding, own)
}

/// The sections whose functions the records of some lists are for.
fn owners_of(
    alloc: Global,
    tables: &Tables,
    binding: &Binding,
    lists: &[(SecNo, Vec<Record>)],
) -> Result<Vec<Vec<Option<SecNo>>>, AllocError>
    requires { All (λ (list : _). list.0 < section_total (files_of tables.now)) lists.now }
    ensures { IfOk result (λ owners. map (λ (list : _). list.items) owners.items ≡ map (λ (list : _). owners_in (files_of tables.now) (binding_view binding.now) (spec.list_view list)) lists.now) }
{
    let mut owners = Vec::with_capacity(alloc, lists.len())?;
    for number in 0..lists.len() {
        let own = list_owners(alloc, tables, binding, &lists[number])?;
        owners.push(own)?;
    }
    Ok(owners)
}

/// The sections whose functions the records of a list are for.
fn list_owners(
    alloc: Global,
    tables: &Tables,
    binding: &Binding,
    list: &(SecNo, Vec<Record>),
) -> Result<Vec<Option<SecNo>>, AllocError>
    requires { list.now.0 < section_total (files_of tables.now) }
    ensures { IfOk result (λ owners. owners.items ≡ owners_in (files_of tables.now) (binding_view binding.now) (spec.list_view list.now)) }
{
    let file = tables.place_of(list.0).file;
    let records = list.1.as_slice();
    let mut owners = Vec::with_capacity(alloc, records.len())?;
    push_owners(&mut owners, tables, binding, file, records)?;
    Ok(owners)
}

/// Adds the sections whose functions some records of a file are for.
fn push_owners(
    owners: &mut Vec<Option<SecNo>>,
    tables: &Tables,
    binding: &Binding,
    file: FileNo,
    records: &[Record],
) -> Result<(), AllocError>
    requires { file < length (files_of tables.now) }
    ensures { OnOk result (owners.new.items ≡ owners.old.items ++ map (λ (r : RecordOf). spec.owner_in (files_of tables.now) (binding_view binding.now) file (record_view r)) records.now) }
{
    for unwind_record in records {
        owners.push(owner_of(tables, binding, file, unwind_record))?;
    }
    Ok(())
}

/// What was found for a list of records, by its number; nothing past the end.
pub fn owners_at(owners: &[Vec<Option<SecNo>>], number: usize) -> &[Option<SecNo>]
    ensures { result.now ≡ slice_index_or (map (λ (list : _). list.items) owners.now) number [] }
{
    match owners.get(number) {
        Some(list) => list.as_slice(),
        None => &[],
    }
}

/// What was found for a record of a list, by its number; none past the end.
pub fn owner_by(owners: &[Option<SecNo>], number: usize) -> Option<SecNo>
    ensures { result ≡ slice_index_or owners.now number None }
{
    match owners.get(number) {
        Some(owner) => *owner,
        None => None,
    }
}

/// So many empty lists.
fn no_frames(alloc: Global, count: usize) -> Result<Vec<Vec<FrameNo>>, AllocError>
    ensures { IfOk result (λ of. map (λ (list : _). list.items) of.items ≡ replicate count []) }
{
    let mut of = Vec::with_capacity(alloc, count)?;
    for _ in 0..count {
        of.push(Vec::new(alloc))?;
    }
    Ok(of)
}

/// Adds the FDEs of one section to the lists of the sections that they are for.
fn push_list(
    tables: &Tables,
    binding: &Binding,
    list: &(SecNo, Vec<Record>),
    owners: &[Option<SecNo>],
    of: &mut Vec<Vec<FrameNo>>,
) -> Result<(), AllocError>
    requires few { length list.now.1.items < 2 ^ 32 }
    requires owners { owners.now ≡ owners_in (files_of tables.now) (binding_view binding.now) (spec.list_view list.now) }
    ensures { OnOk result (map (λ (list : _). list.items) of.new.items ≡ lists_after (files_of tables.now) (binding_view binding.now) (spec.list_view list.now) (map (λ (list : _). list.items) of.old.items)) }
{
    let section = list.0;
    if binding.is_discarded(section as usize) {
        return Ok(());
    }
    let records = list.1.as_slice();
    for at in 0..records.len() {
        push_frame(
            of,
            owner_by(owners, at),
            FrameNo {
                section,
                at: at as u32,
            },
        )?;
    }
    Ok(())
}

/// Adds an FDE to the list of the section that it is for, if it is for one that has a list.
fn push_frame(
    of: &mut Vec<Vec<FrameNo>>,
    owner: Option<SecNo>,
    frame: FrameNo,
) -> Result<(), AllocError>
    ensures { OnOk result (map (λ (list : _). list.items) of.new.items ≡ with_frame owner frame (map (λ (list : _). list.items) of.old.items)) }
{
    let Some(owner) = owner else {
        return Ok(());
    };
    if (owner as usize) < of.len() {
        of[owner as usize].push(frame)?;
    }
    Ok(())
}

/// The section whose function a record of a file is for, if it is an FDE with relocations.
#[tactic(auto, unfolding(lk_tables::specs::Frames::owner_in))]
fn owner_of(tables: &Tables, binding: &Binding, file: FileNo, frame: &Record) -> Option<SecNo>
    requires { file < length (files_of tables.now) }
    ensures { result ≡ spec.owner_in (files_of tables.now) (binding_view binding.now) file (record_view frame.now) }
{
    if frame.cie.is_none() {
        return None;
    }
    let Some(first) = first_of(frame.relocs.as_slice()) else {
        return None;
    };
    section_of(spot_in(tables, binding, file, &first))
}

/// The section of what a relocation stands for.
fn section_of(target: Spot) -> Option<SecNo>
    ensures { result ≡ spec.section_of_spot target }
{
    match target {
        Spot::Section {
            section,
            offset: _,
            rest: _,
        } => Some(section),
        Spot::Number(_) => None,
        Spot::Zero => None,
        Spot::Linker(_) => None,
        Spot::Unbound => None,
    }
}
