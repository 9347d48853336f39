//! The tables of a link, once the bodies of the files that take part are read.

ghost use Rattle.std.specs.Prelude.{◌≡◌, ◌≤◌, ◌<◌, ◌^◌, ℕ, length, Ok, IfOk, IfSome};
ghost use Rattle.lk_base.specs.declared.abi.TheConstants.{FILE_MAX};
ghost use Rattle.lk_tables.specs.FileView.{file_view, file_views};
ghost use Rattle.lk_tables.specs.Files.{file_at, no_head, section_total, symbol_total};
ghost use Rattle.lk_tables.specs.Gathering.{AreBodies, IsBodyOf, with_object, with_objects};
ghost use Rattle.lk_tables.specs.TablesView.{are_numbered, files_of, have_numbers, heads_of};

use crate::files::File;
use crate::objects::Object;
use crate::starts::{first_sections, first_symbols, section_files};
use crate::tables::{Heads, Tables};
use std::alloc::{AllocError, Global};

impl<'a> Tables<'a> {
    /// The tables of a link: its files, and for each of them its body if it takes part. The sections of those that do are numbered
    /// in the order of the files.
    pub fn of(
        alloc: Global,
        heads: Heads<'a>,
        objects: Vec<Option<Object>>,
    ) -> Result<Tables<'a>, AllocError>
        requires each { length objects.items ≡ length (heads_of heads) }
        requires bodies { AreBodies (heads_of heads) objects.items }
        requires symbols { symbol_total (heads_of heads) < 2 ^ 31 }
        requires sections { section_total (with_objects (heads_of heads) objects.items) ≤ 2 ^ 28 }
        ensures files { IfOk result (λ tables. files_of tables ≡ with_objects (heads_of heads.entry) objects.items) }
        ensures names { IfOk result (λ tables. have_numbers tables ≡ are_numbered heads.entry) }
    {
        let mut files = heads.files;
        put_bodies(&mut files, objects);
        let first_symbols = first_symbols(alloc, files.as_slice())?;
        let first_sections = first_sections(alloc, files.as_slice())?;
        let section_files = section_files(alloc, files.as_slice(), first_sections.as_slice())?;
        Ok(Tables {
            files,
            names: heads.names,
            first_symbols,
            first_sections,
            section_files,
        })
    }
}

/// Gives each file its body, if it has one.
fn put_bodies(files: &mut Vec<File>, objects: Vec<Option<Object>>)
    requires each { length objects.items ≡ length (file_views files.old.items) }
    requires bodies { AreBodies (file_views files.old.items) objects.items }
    ensures { file_views files.new.items ≡ with_objects (file_views files.old.items) objects.items }
{
    let mut f = 0;
    for object in objects {
        put_body(&mut files[f], object);
        f += 1;
    }
}

/// Gives a file its body, if it has one: then it takes part in the link.
fn put_body(file: &mut File, object: Option<Object>)
    requires { IfSome object (IsBodyOf (file_view file.old)) }
    ensures { file_view file.new ≡ with_object (file_view file.old) object }
{
    file.object = object;
}
