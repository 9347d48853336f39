//! The files that are reached from the objects of the command.

ghost use Rattle.std.specs.Prelude.{◌≡◌, ◌<◌, ◌^◌, length, IfOk, OnOk};
ghost use Rattle.claim_core.specs.Events.{none_of, after};
ghost use Rattle.lk_tables.specs.FileView.{file_views};
ghost use Rattle.lk_tables.specs.Files.{symbol_total};
ghost use Rattle.lk_tables.specs.NameNumbers.{NumbersNames, heads_alone};
ghost use Rattle.lk_tables.specs.Reach.{IsReach};
ghost use Rattle.file_live.specs.Claims.{claims};
ghost use Rattle.file_live.specs.Pulls.{asked_members, commands, ends, first_files, lists_of, pulled_in};
ghost use Rattle.file_live.specs.Visits.{reached, visited, all_visited};

use crate::asked::asked_member;
use crate::pulls::pulled_by;
use lk_base::FileNo;
use lk_tables::{File, NameNumbers};
use std::alloc::{AllocError, Global};

/// Marks the objects of the command, the members that this asks for, the members that each marked file pulls, and no others. It follows each file's pulls once, in a
/// queue that grows.
pub fn reach(
    alloc: Global,
    files: &[File],
    undefined: &[Vec<u8>],
    names: &NameNumbers,
    row: &[u64],
) -> Result<Vec<bool>, AllocError>
    requires files { length files.now < 2 ^ 24 }
    requires symbols { symbol_total (file_views files.now) < 2 ^ 31 }
    requires names { NumbersNames (heads_alone (file_views files.now)) names.now }
    requires row { row.now ≡ after (none_of (symbol_total (file_views files.now))) (claims (file_views files.now)) }
    ensures { IfOk result (λ seen. IsReach (first_files (lists_of undefined.now) (file_views files.now)) (ends (file_views files.now)) seen.items) }
{
    let mut seen = vec![in alloc; false; files.len()]?;
    let mut queue = Vec::with_capacity(alloc, files.len())?;
    visit_commands(&mut seen, &mut queue, files)?;
    visit_asked(&mut seen, &mut queue, files, undefined)?;
    let mut next: usize = 0;
    while next < queue.len() {
        let f = queue[next] as usize;
        visit_pulled(&mut seen, &mut queue, files, f, names, row)?;
        next += 1;
    }
    Ok(seen)
}

/// Marks the objects of the command.
fn visit_commands(
    seen: &mut Vec<bool>,
    queue: &mut Vec<FileNo>,
    files: &[File],
) -> Result<(), AllocError>
    requires files { length files.now < 2 ^ 24 }
    requires wide { length seen.old.items ≡ length files.now }
    ensures { OnOk result (reached seen.new.items queue.new.items ≡ all_visited (reached seen.old.items queue.old.items) (commands (file_views files.now))) }
{
    for f in 0..files.len() {
        if !files[f].is_member() {
            visit(seen, queue, f as u32)?;
        }
    }
    Ok(())
}

/// Marks the members that the command asks for.
fn visit_asked(
    seen: &mut Vec<bool>,
    queue: &mut Vec<FileNo>,
    files: &[File],
    undefined: &[Vec<u8>],
) -> Result<(), AllocError>
    requires files { length files.now < 2 ^ 24 }
    requires symbols { symbol_total (file_views files.now) < 2 ^ 31 }
    requires wide { length seen.old.items ≡ length files.now }
    ensures { OnOk result (reached seen.new.items queue.new.items ≡ all_visited (reached seen.old.items queue.old.items) (asked_members (lists_of undefined.now) (file_views files.now))) }
{
    for n in 0..undefined.len() {
        if let Some(member) = asked_member(files, undefined, n) {
            visit(seen, queue, member)?;
        }
    }
    Ok(())
}

/// Marks the members that a file pulls.
fn visit_pulled(
    seen: &mut Vec<bool>,
    queue: &mut Vec<FileNo>,
    files: &[File],
    f: usize,
    names: &NameNumbers,
    row: &[u64],
) -> Result<(), AllocError>
    requires file { f < length files.now }
    requires files { length files.now < 2 ^ 24 }
    requires symbols { symbol_total (file_views files.now) < 2 ^ 31 }
    requires names { NumbersNames (heads_alone (file_views files.now)) names.now }
    requires row { row.now ≡ after (none_of (symbol_total (file_views files.now))) (claims (file_views files.now)) }
    requires wide { length seen.old.items ≡ length files.now }
    ensures { OnOk result (reached seen.new.items queue.new.items ≡ all_visited (reached seen.old.items queue.old.items) (pulled_in (file_views files.now) f)) }
{
    for i in 0..files[f].symbols().len() {
        if let Some(member) = pulled_by(files, f, i, names, row) {
            visit(seen, queue, member)?;
        }
    }
    Ok(())
}

/// Marks a file, and puts it into the queue if it was not marked.
fn visit(seen: &mut Vec<bool>, queue: &mut Vec<FileNo>, file: FileNo) -> Result<(), AllocError>
    requires { file < length seen.old.items }
    ensures { OnOk result (reached seen.new.items queue.new.items ≡ visited (reached seen.old.items queue.old.items) file) }
{
    let at = file as usize;
    if seen[at] {
        return Ok(());
    }
    seen[at] = true;
    queue.push(file)?;
    Ok(())
}
