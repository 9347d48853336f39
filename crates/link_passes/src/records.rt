//! The unwind records of the files that take part: those of a file are read with its body, and get the numbers of their sections once all
//! sections have numbers.

ghost use Rattle.std.specs.Prelude.{◌≡◌, ◌<◌, ◌≤◌, ◌∷◌, ◌++◌, [], true, Ok, IfOk, OnOk, length, map};
ghost use Rattle.std.specs.List.{range_with_len};
ghost use Rattle.lk_base.specs.declared.abi.TheConstants.{FILE_MAX};
ghost use Rattle.lk_tables.specs.Checks.{Follows, Gives};
ghost use Rattle.lk_tables.specs.Files.{file_at, section_no};
ghost use Rattle.lk_tables.specs.FileView.{file_view};
ghost use Rattle.lk_tables.specs.Frames.{all_lists, list_views};
ghost use Rattle.lk_tables.specs.Heads.{head_of, head_view};
ghost use Rattle.lk_tables.specs.Objects.{object_of, object_view};
ghost use Rattle.lk_tables.specs.TablesView.{files_of};
ghost use Rattle.eh_frame.specs.Sections.{all_frame_checks, section_frames};
ghost use Rattle.link_passes.specs.declared.records.Body.{Body as BodyOf};
ghost use Rattle.link_passes.specs.Defects.{body_of};
ghost use Rattle.link_passes.specs.Frames.{list_in, lists_for, lists_in, numbered};
ghost use Rattle.link_passes.specs.Reading.{IsBody, object_in, records_in};
ghost use Rattle.link_passes.specs.Sources.{with_body};

use eh_frame::read_frames;
use elf_read::read_body;
use lk_base::{ReadFault, SecNo};
use lk_tables::{File, Object, Record, Tables};
use std::alloc::{AllocError, Global};

/// What is read of a file that takes part.
#[derive(Debug, Drop)]
pub struct Body {
    pub object: Object,
    /// The unwind records of its sections that have some, each with the section's index, in order.
    pub records: Vec<(u32, Vec<Record>)>,
}

/// The body of a file, and its unwind records, or the first flaw: those of unwind records come after all others of the file.
#[tactic(auto, unfolding(crate::specs::Defects::body_of))]
pub fn read_whole(alloc: Global, file: &File) -> Result<Body, ReadFault>
    requires head { head_of (file_view file.now).bytes ≡ Ok (file_view file.now).head }
    requires short { length (file_view file.now).bytes ≤ FILE_MAX }
    ensures exact { Gives (λ (body : BodyOf). object_view body.object) result (body_of (file_view file.now).bytes) }
    ensures body { IfOk result (IsBody (file_view file.now)) }
{
    let object = read_body(alloc, file.bytes(), file.head())?;
    let records = read_records(alloc, file, &object)?;
    Ok(Body { object, records })
}

/// The unwind records of a file, by the indexes of its sections, or the first that is wrong.
fn read_records(
    alloc: Global,
    file: &File,
    object: &Object,
) -> Result<Vec<(u32, Vec<Record>)>, ReadFault>
    requires head { head_of (file_view file.now).bytes ≡ Ok (file_view file.now).head }
    requires short { length (file_view file.now).bytes ≤ FILE_MAX }
    requires object { object_of (file_view file.now).bytes ≡ Ok (object_view object.now) }
    ensures checked { Follows result (all_frame_checks (file_view file.now).bytes) }
    ensures lists { IfOk result (λ lists. list_views lists.items ≡ lists_in (with_body (file_view file.now))) }
{
    let mut lists = Vec::new(alloc);
    let count = file.sections().len() as u32;
    for index in 0..count {
        push_records(alloc, file, object, index, &mut lists)?;
    }
    Ok(lists)
}

/// Adds the unwind records of a section, if it has some.
#[tactic(auto, unfolding(eh_frame::specs::Sections::section_frames))]
fn push_records(
    alloc: Global,
    file: &File,
    object: &Object,
    index: u32,
    lists: &mut Vec<(u32, Vec<Record>)>,
) -> Result<(), ReadFault>
    requires head { head_of (file_view file.now).bytes ≡ Ok (file_view file.now).head }
    requires short { length (file_view file.now).bytes ≤ FILE_MAX }
    requires object { object_of (file_view file.now).bytes ≡ Ok (object_view object.now) }
    requires index { index < length (file_view file.now).head.sections }
    ensures checked { Follows result (section_frames (file_view file.now).bytes index) }
    ensures lists { OnOk result (list_views lists.new.items ≡ list_views lists.old.items ++ list_in (with_body (file_view file.now)) index) }
{
    if !file.is_frame(index as usize) {
        return Ok(());
    }
    let records = read_frames(alloc, file.bytes(), file.head(), object, index)?;
    lists.push((index, records))?;
    Ok(())
}

/// The bodies by themselves, and beside them by file the unwind records; a file without a body has none.
pub fn split_bodies(
    alloc: Global,
    bodies: Vec<Option<Body>>,
) -> Result<(Vec<Option<Object>>, Vec<Vec<(u32, Vec<Record>)>>), AllocError>
    ensures objects { IfOk result (λ both. both.0.items ≡ map object_in bodies.items) }
    ensures records { IfOk result (λ both. map (λ (list : _). list_views list.items) both.1.items ≡ map records_in bodies.items) }
{
    let mut objects = Vec::with_capacity(alloc, bodies.len())?;
    let mut records = Vec::with_capacity(alloc, bodies.len())?;
    for body in bodies {
        push_body(alloc, body, &mut objects, &mut records)?;
    }
    Ok((objects, records))
}

/// Adds the two parts of a body.
fn push_body(
    alloc: Global,
    body: Option<Body>,
    objects: &mut Vec<Option<Object>>,
    records: &mut Vec<Vec<(u32, Vec<Record>)>>,
) -> Result<(), AllocError>
    ensures objects { OnOk result (objects.new.items ≡ objects.old.items ++ object_in body ∷ []) }
    ensures records { OnOk result (map (λ (list : _). list_views list.items) records.new.items ≡ map (λ (list : _). list_views list.items) records.old.items ++ records_in body ∷ []) }
{
    match body {
        Some(body) => {
            objects.push(Some(body.object))?;
            records.push(body.records)?;
        }
        None => {
            objects.push(None)?;
            records.push(Vec::new(alloc))?;
        }
    }
    Ok(())
}

/// The unwind records of all files by the numbers of their sections, in order, where each file has those of its sections by their indexes.
pub fn number_records(
    alloc: Global,
    tables: &Tables,
    records: Vec<Vec<(u32, Vec<Record>)>>,
) -> Result<Vec<(SecNo, Vec<Record>)>, AllocError>
    requires { map (λ (list : _). list_views list.items) records.items ≡ map (λ f. lists_for (file_at (files_of tables.now) f)) (range_with_len 0 (length (files_of tables.now))) }
    ensures { IfOk result (λ lists. list_views lists.items ≡ all_lists (files_of tables.now)) }
{
    let mut lists = Vec::new(alloc);
    let mut file = 0;
    for list in records {
        push_numbered(tables, file, list, &mut lists)?;
        file += 1;
    }
    Ok(lists)
}

/// Adds the unwind records of a file under the numbers of their sections.
fn push_numbered(
    tables: &Tables,
    file: usize,
    records: Vec<(u32, Vec<Record>)>,
    lists: &mut Vec<(SecNo, Vec<Record>)>,
) -> Result<(), AllocError>
    requires file { file < length (files_of tables.now) }
    requires records { list_views records.items ≡ lists_for (file_at (files_of tables.now) file) }
    ensures { OnOk result (list_views lists.new.items ≡ list_views lists.old.items ++ map (numbered (files_of tables.now) file) (list_views records.items)) }
{
    for list in records {
        lists.push((number_of(tables, file, list.0), list.1))?;
    }
    Ok(())
}

/// The number of a section in the table of a file that takes part.
fn number_of(tables: &Tables, file: usize, index: u32) -> SecNo
    requires file { file < length (files_of tables.now) }
    requires live { (file_at (files_of tables.now) file).live ≡ true }
    requires index { index < length (file_at (files_of tables.now) file).head.sections }
    ensures { result ≡ section_no (files_of tables.now) file index }
{
    tables.prove_few();
    tables.section_no(file, index as usize) as u32
}
