//! The sections that are discarded.

ghost use Rattle.std.specs.Prelude.{◌≡◌, ◌<◌, ◌≤◌, ◌^◌, length, IfOk};
ghost use Rattle.lk_tables.specs.TablesView.{files_of};
ghost use Rattle.comdat.specs.Comdats.{comdat_views};
ghost use Rattle.comdat.specs.Discarded.{comdats, discarded};
ghost use Rattle.comdat.specs.Law.{KeepsFirst};

use crate::groups::{ComdatGroup, comdats_of};
use crate::marks::mark_beaten;
use crate::signatures::signatures_of;
use intern_race::Texts;
use lk_tables::Tables;
use name_numbers::number_texts;
use std::alloc::{AllocError, Global};
use std::thread::Threads;
use work_split::Gate;

/// There are no more COMDAT groups than sections, since each is one. Nothing is done while a program runs: the clause is all.
fn prove_few_groups(tables: &Tables, groups: &Vec<ComdatGroup>)
    requires { comdat_views groups.now.items ≡ comdats (files_of tables.now) }
    ensures { length groups.now.items < 2 ^ 31 }
{
    tables.prove_few();
}

/// By section number, whether a section is discarded: it belongs to a COMDAT group of whose signature another stands before, in order of
/// file and section, in the files that take part. It answers the same whatever the number of workers. The only error is out of memory.
pub fn discard<R: Threads + Sync, G: Gate>(
    rt: &R,
    alloc: Global,
    tables: &Tables,
    workers: u32,
    gate: &G,
) -> Result<Vec<bool>, AllocError>
    requires some { 1 ≤ workers }
    requires most { workers ≤ 64 }
    ensures discarded { IfOk result (λ list. list.items ≡ discarded (files_of tables.now)) }
    ensures kept { IfOk result (λ _. KeepsFirst (comdats (files_of tables.now))) }
{
    let groups = comdats_of(alloc, tables.files())?;
    let mut marks = vec![in alloc; false; tables.section_count()]?;
    if groups.len() == 0 {
        return Ok(marks);
    }
    prove_few_groups(tables, &groups);
    let list = signatures_of(alloc, groups.as_slice())?;
    let signatures = Texts::of(alloc, list);
    let numbers = number_texts(rt, alloc, &signatures, workers, gate)?;
    mark_beaten(&mut marks, tables, groups.as_slice(), numbers.as_slice());
    Ok(marks)
}
