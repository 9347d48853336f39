//! The body of an object: what is read of a file that takes part in the link.

ghost use Rattle.std.specs.Prelude.{◌≡◌, [], Ok, Err, IfOk, map, replicate};
ghost use Rattle.lk_base.specs.declared.defects.Flaw.{Flaw as FlawOf};
ghost use Rattle.lk_base.specs.declared.defects.ReadFault.TheVariants.{Bad};
ghost use Rattle.lk_tables.specs.Checks.{Gives, IsFirstBroken};
ghost use Rattle.lk_tables.specs.Heads.{head_of, head_view};
ghost use Rattle.lk_tables.specs.Objects.{ObjectView, object_view, object_of, object_checks, BodyOf};

use crate::section_bodies::read_sections;
use crate::sound_file::reopen;
use crate::symbol_checks::check_uses;
use lk_base::ReadFault;
use lk_tables::{Head, Object, Reloc};
use std::alloc::{AllocError, Global};

/// Reads the section groups and the relocations of a relocatable object for 64-bit RISC-V whose head is read.
///
/// The answer is the body whose groups, in order of their sections, and relocations, one list for each section in stable order
/// of offset, are the numbers at their places, if no check is broken; else the first broken check in the order of
/// `object_checks`, with its place; or that memory ran out. Signatures are spans of the input, which name no file and count
/// from its first byte.
pub fn read_body(alloc: Global, bytes: &[u8], head: &Head) -> Result<Object, ReadFault>
    // The head is of these bytes.
    requires { head_of bytes.now ≡ Ok (head_view head.now) }
    // What is read, and which flaw it is.
    ensures exact { Gives object_view result (object_of bytes.now) }
    // What is read is the body of these bytes.
    ensures found { IfOk result (λ object. BodyOf bytes.now (object_view object)) }
    // The body of these bytes is read, unless memory runs out.
    ensures only { (object : ObjectView) → BodyOf bytes.now object → Gives object_view result (Ok object) }
    // A flaw is that of the first broken check.
    ensures refused { (flaw : FlawOf) → result ≡ Err (Bad flaw) → IsFirstBroken (object_checks bytes.now) flaw }
    // The first broken check is reported, unless memory runs out.
    ensures broken { (flaw : FlawOf) → IsFirstBroken (object_checks bytes.now) flaw → Gives object_view result (Err flaw) }
{
    read(alloc, bytes, head)
}

/// The body of a file, or its first broken check.
fn read(alloc: Global, bytes: &[u8], head: &Head) -> Result<Object, ReadFault>
    requires { head_of bytes.now ≡ Ok (head_view head.now) }
    ensures { Gives object_view result (object_of bytes.now) }
{
    let file = reopen(bytes, head);
    let count = file.sections.len();
    let mut marks = vec![in alloc; false; count]?;
    let mut lists = empty_lists(alloc, count)?;
    let mut taken = vec![in alloc; false; count]?;
    let mut groups = Vec::new(alloc);
    read_sections(
        alloc,
        &file,
        marks.as_mut_slice(),
        lists.as_mut_slice(),
        taken.as_mut_slice(),
        &mut groups,
    )?;
    check_uses(&file)?;
    Ok(Object {
        groups,
        relocs: lists,
    })
}

/// Empty lists.
fn empty_lists(alloc: Global, count: usize) -> Result<Vec<Vec<Reloc>>, AllocError>
    ensures { IfOk result (λ lists. map (λ list. list.items) lists.items ≡ replicate count []) }
{
    let mut lists = Vec::with_capacity(alloc, count)?;
    for _ in 0..count {
        lists.push(Vec::new(alloc))?;
    }
    Ok(lists)
}
