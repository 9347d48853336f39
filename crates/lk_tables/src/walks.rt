//! The relocations of a link, tested one after the other.

ghost use Rattle.std.specs.Prelude.{◌≡◌, ℕ, ◌<◌, ◌^◌, [], length, flat_map, true, false, List};
ghost use Rattle.std.specs.List.{range_with_len};
ghost use Rattle.lk_base.specs.declared.defects.Defect.{Defect};
ghost use Rattle.lk_base.specs.Firsts.{IsFirst};
ghost use Rattle.lk_tables.specs.declared.objects.Reloc.{Reloc};
ghost use Rattle.lk_tables.specs.FileView.{file_view};
ghost use Rattle.lk_tables.specs.Files.{File, file_at, relocs_at};
ghost use Rattle.lk_tables.specs.TablesView.{files_of};
ghost use Rattle.lk_tables.specs.Walks as spec;
ghost use Rattle.lk_tables.specs.Walks.{over_file, over_live, over_relocs, over_section};

use crate::files::File;
use crate::objects::Reloc;
use crate::tables::Tables;
use lk_base::{Defect, DefectKind, FileNo};

/// A test of single relocations.
pub trait RelocTest {
    /// The files of which it tests the relocations.
    ghost files: { Self → List File };
    /// What is wrong with a relocation of a section of a file.
    ghost defects: { Self → ℕ → ℕ → Reloc → List Defect };

    /// Whether there may be a defect in a file that takes part in the link. Asked once for each file; where it is false no relocation of the
    /// file is read. It may be true where there is none.
    fn wants(&self, file: FileNo) -> bool
        requires file { file < length (files self.now) }
        requires live { (file_at (files self.now) file).live ≡ true }
        ensures { result ≡ false → over_file (files self.now) (over_section (files self.now) (defects self.now)) file ≡ [] };

    /// The first defect of a relocation. Asked for a file's relocations in order of section and offset, up to the first that has one.
    fn check(&self, file: FileNo, section: u32, reloc: &Reloc) -> Option<Defect>
        requires file { file < length (files self.now) }
        requires live { (file_at (files self.now) file).live ≡ true }
        requires section { section < length (file_at (files self.now) file).head.sections }
        ensures { IsFirst (defects self.now file section reloc.now) result };
}

/// The first defect of a link's relocations, in order of file, section and offset.
#[tactic(auto, unfolding(crate::specs::Walks::over_live))]
pub fn first_over_relocs<T: RelocTest>(tables: &Tables, test: &T) -> Option<Defect>
    requires { T.files test.now ≡ files_of tables.now }
    ensures { IsFirst (over_relocs (files_of tables.now) (T.defects test.now)) result }
{
    first_in_files(tables, test, tables.file_count() as u32)
}

/// The first defect of so many files.
fn first_in_files<T: RelocTest>(tables: &Tables, test: &T, count: u32) -> Option<Defect>
    requires same { T.files test.now ≡ files_of tables.now }
    requires count { count ≡ length (files_of tables.now) }
    ensures { IsFirst (flat_map (over_file (files_of tables.now) (over_section (files_of tables.now) (T.defects test.now))) (range_with_len 0 count)) result }
{
    for file in 0..count {
        if let Some(defect) = first_in_file(tables, test, file) {
            return Some(defect);
        }
    }
    None
}

/// The first defect of a file, if it takes part in the link.
#[tactic(auto, unfolding(crate::specs::Walks::over_file))]
fn first_in_file<T: RelocTest>(tables: &Tables, test: &T, file: FileNo) -> Option<Defect>
    requires same { T.files test.now ≡ files_of tables.now }
    requires file { file < length (files_of tables.now) }
    ensures { IsFirst (over_file (files_of tables.now) (over_section (files_of tables.now) (T.defects test.now)) file) result }
{
    let entry = tables.file(file);
    if !entry.is_live() {
        return None;
    }
    if !test.wants(file) {
        return None;
    }
    first_in_sections(tables, test, file, entry.sections().len() as u32)
}

/// The first defect of so many sections of a file.
fn first_in_sections<T: RelocTest>(
    tables: &Tables,
    test: &T,
    file: FileNo,
    count: u32,
) -> Option<Defect>
    requires same { T.files test.now ≡ files_of tables.now }
    requires file { file < length (files_of tables.now) }
    requires live { (file_at (files_of tables.now) file).live ≡ true }
    requires count { count ≡ length (file_at (files_of tables.now) file).head.sections }
    ensures { IsFirst (flat_map (over_section (files_of tables.now) (T.defects test.now) file) (range_with_len 0 count)) result }
{
    for section in 0..count {
        let relocs = tables.relocs(file, section);
        if let Some(defect) = first_in_section(test, file, section, relocs) {
            return Some(defect);
        }
    }
    None
}

/// The first defect of relocations of a section.
fn first_in_section<T: RelocTest>(
    test: &T,
    file: FileNo,
    section: u32,
    relocs: &[Reloc],
) -> Option<Defect>
    requires file { file < length (T.files test.now) }
    requires live { (file_at (T.files test.now) file).live ≡ true }
    requires section { section < length (file_at (T.files test.now) file).head.sections }
    ensures { IsFirst (flat_map (T.defects test.now file section) relocs.now) result }
{
    for reloc in relocs {
        if let Some(defect) = test.check(file, section, reloc) {
            return Some(defect);
        }
    }
    None
}

/// A defect of a relocation of a section of a file.
pub fn reloc_defect(
    kind: DefectKind,
    file: FileNo,
    section: u32,
    reloc: &Reloc,
    other: u64,
) -> Defect
    ensures { result ≡ spec.reloc_defect kind file section reloc.now other }
{
    Defect {
        kind,
        file,
        section,
        place: reloc.offset,
        symbol: reloc.symbol,
        other,
    }
}

impl<'a> Tables<'a> {
    /// The file of a number.
    pub fn file(&self, file: FileNo) -> &File<'a>
        requires { file < length (files_of self.now) }
        ensures { file_view result.now ≡ file_at (files_of self.now) file }
    {
        &self.files[file as usize]
    }

    /// The relocations of a section of a file, in stable order of offset.
    pub fn relocs(&self, file: FileNo, section: u32) -> &[Reloc]
        requires { file < length (files_of self.now) }
        ensures { result.now ≡ relocs_at (file_at (files_of self.now) file) section }
    {
        self.file(file).relocs(section as usize)
    }
}
