//! The sections that are merged, in order of number.

ghost use Rattle.std.specs.Prelude.{◌≡◌, ◌<◌, ◌++◌, length, IfOk, OnOk};
ghost use Rattle.lk_tables.specs.Files.{file_at, section_count};
ghost use Rattle.lk_tables.specs.TablesView.{files_of};
ghost use Rattle.link_sections.specs.Merging as spec;
ghost use Rattle.str_merge.specs.Sites.{site_views};

use crate::sections::is_mergeable;
use link_sections::is_kept;
use lk_base::{FileNo, SecNo};
use lk_tables::{Tables, section_count};
use std::alloc::{AllocError, Global};

/// A section that is merged.
#[derive(Clone, Copy, Debug, PartialEq, Eq)]
pub struct Site {
    /// Its number in the link.
    pub section: SecNo,
    /// Its file.
    pub file: FileNo,
    /// Its index there.
    pub index: u32,
}

/// The sections that are merged, in order of number.
#[tactic(auto, unfolding(link_sections::specs::Merging::sites))]
pub fn merge_sites(alloc: Global, tables: &Tables, kept: &[bool]) -> Result<Vec<Site>, AllocError>
    ensures { IfOk result (λ list. site_views list.items ≡ spec.sites (files_of tables.now) kept.now) }
{
    tables.prove_few();
    let mut list = Vec::new(alloc);
    for file in 0..tables.file_count() as u32 {
        push_sites(&mut list, tables, kept, file)?;
    }
    Ok(list)
}

/// Adds the sections of one file that are merged, in order of number.
#[tactic(auto, unfolding(link_sections::specs::Merging::sites_in))]
fn push_sites(
    list: &mut Vec<Site>,
    tables: &Tables,
    kept: &[bool],
    file: FileNo,
) -> Result<(), AllocError>
    requires { file < length (files_of tables.now) }
    ensures { OnOk result (site_views list.new.items ≡ site_views list.old.items ++ spec.sites_in (files_of tables.now) kept.now file) }
{
    tables.prove_few();
    for index in 0..section_count(tables.file(file)) {
        push_site(list, tables, kept, file, index as u32)?;
    }
    Ok(())
}

/// A section of a file, if it is merged.
#[tactic(auto, unfolding(link_sections::specs::Merging::site_at))]
fn push_site(
    list: &mut Vec<Site>,
    tables: &Tables,
    kept: &[bool],
    file: FileNo,
    index: u32,
) -> Result<(), AllocError>
    requires file { file < length (files_of tables.now) }
    requires index { index < section_count (file_at (files_of tables.now) file) }
    ensures { OnOk result (site_views list.new.items ≡ site_views list.old.items ++ spec.site_at (files_of tables.now) kept.now file index) }
{
    if !is_merge(tables, kept, file, index) {
        return Ok(());
    }
    let section = tables.section_no(file as usize, index as usize) as u32;
    list.push(Site {
        section,
        file,
        index,
    })?;
    Ok(())
}

/// Whether a section of a file is merged.
#[tactic(auto, unfolding(link_sections::specs::Merging::is_merge))]
pub fn is_merge(tables: &Tables, kept: &[bool], file: FileNo, index: u32) -> bool
    requires { file < length (files_of tables.now) }
    ensures { result ≡ spec.is_merge (files_of tables.now) kept.now file index }
{
    is_kept(kept, tables.section_no(file as usize, index as usize))
        && is_mergeable(tables.file(file), index as usize)
}
