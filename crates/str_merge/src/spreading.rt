//! What is merged, by section number.

ghost use Rattle.std.specs.Prelude.{◌≡◌, ◌+◌, ◌<◌, ◌++◌, ◌^◌, length, slice_get, None, if◌then◌else◌, IfOk, OnOk};
ghost use Rattle.lk_tables.specs.TablesView.{files_of};
ghost use Rattle.lk_tables.proofs.ByNumber.{section_row};
ghost use Rattle.str_merge.specs.Spreading.{answer_in, sites_before, spread};

use crate::sites::is_merge;
use link_sections::Merged;
use lk_base::FileNo;
use lk_tables::{Tables, section_count};
use std::alloc::{AllocError, Global};

/// By section number what is merged, if `answers` has it for each section that is, in order.
pub fn spread(
    alloc: Global,
    tables: &Tables,
    kept: &[bool],
    answers: &[Merged],
) -> Result<Vec<Option<Merged>>, AllocError>
    ensures { IfOk result (λ list. list.items ≡ spread (files_of tables.now) kept.now answers.now) }
{
    tables.prove_few();
    let mut list = Vec::with_capacity(alloc, tables.section_count())?;
    let mut next = 0;
    for file in 0..tables.file_count() as u32 {
        next = spread_file(&mut list, tables, kept, answers, file, next)?;
    }
    Ok(list)
}

/// Adds what is merged of the sections of one file, of which the first that is merged has the answer `next`. Gives the answer of the next file's.
fn spread_file(
    list: &mut Vec<Option<Merged>>,
    tables: &Tables,
    kept: &[bool],
    answers: &[Merged],
    file: FileNo,
    start: usize,
) -> Result<usize, AllocError>
    requires file { file < length (files_of tables.now) }
    requires start { start ≡ sites_before (files_of tables.now) kept.now file }
    ensures next { IfOk result (λ next. next ≡ sites_before (files_of tables.now) kept.now (file + 1)) }
    ensures list { OnOk result (list.new.items ≡ list.old.items ++ section_row (files_of tables.now) (answer_in (files_of tables.now) kept.now answers.now) file) }
{
    tables.prove_few();
    let mut next = start;
    for index in 0..section_count(tables.file(file)) {
        let merges = is_merge(tables, kept, file, index as u32);
        list.push(answer(answers, next, merges))?;
        next = after(next, merges);
    }
    Ok(next)
}

/// The answer of a number, for a section that is merged.
fn answer(answers: &[Merged], number: usize, merges: bool) -> Option<Merged>
    ensures { result ≡ (if merges then slice_get answers.now number else None) }
{
    if !merges {
        return None;
    }
    match answers.get(number) {
        Some(answer) => Some(*answer),
        None => None,
    }
}

/// The number of the next answer.
fn after(number: usize, merges: bool) -> usize
    requires { number < 2 ^ 31 }
    ensures { result ≡ number + (if merges then 1 else 0) }
{
    if !merges {
        return number;
    }
    number + 1
}
