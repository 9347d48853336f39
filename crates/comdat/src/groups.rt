//! The COMDAT groups of the files that take part in a link.

ghost use Rattle.std.specs.Prelude.{◌≡◌, ◌++◌, ◌<◌, ◌^◌, length, IfOk, OnOk};
ghost use Rattle.lk_tables.specs.FileView.{file_view, file_views};
ghost use Rattle.comdat.specs.Comdats.{comdat_views};
ghost use Rattle.comdat.specs.Discarded as spec;

use lk_base::FileNo;
use lk_tables::{File, text_of};
use std::alloc::{AllocError, Global};

/// A COMDAT group of a file that takes part.
#[derive(Clone, Copy)]
pub struct ComdatGroup<'t, 'a> {
    /// Its file.
    pub file: FileNo,
    /// The index of its GROUP section.
    pub section: u32,
    /// The name by which groups of several files are one.
    pub signature: &'a [u8],
    /// The sections that belong to it, by their indexes in the file.
    pub members: &'t [u32],
}

/// Lists the COMDAT groups of the files that take part, in order of file and section.
pub fn comdats_of<'t, 'a>(
    alloc: Global,
    files: &'t [File<'a>],
) -> Result<Vec<ComdatGroup<'t, 'a>>, AllocError>
    requires { length files.now < 2 ^ 24 }
    ensures { IfOk result (λ list. comdat_views list.items ≡ spec.comdats (file_views files.now)) }
{
    let mut list = Vec::new(alloc);
    for f in 0..files.len() {
        push_comdats(&mut list, &files[f], f as u32)?;
    }
    Ok(list)
}

/// The COMDAT groups of one file.
fn push_comdats<'t, 'a>(
    list: &mut Vec<ComdatGroup<'t, 'a>>,
    file: &'t File<'a>,
    number: FileNo,
) -> Result<(), AllocError>
    ensures { OnOk result (comdat_views list.new.items ≡ comdat_views list.old.items ++ spec.comdats_in (file_view file.now) number) }
{
    for group in file.groups() {
        if group.comdat {
            list.push(ComdatGroup {
                file: number,
                section: group.section,
                signature: text_of(file.bytes(), &group.signature),
                members: group.members.as_slice(),
            })?;
        }
    }
    Ok(())
}
