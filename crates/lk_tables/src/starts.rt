//! The numbers of each file's first symbol and first section, and the file of each section number.

ghost use Rattle.std.specs.Prelude.{◌≡◌, ◌+◌, ◌<◌, ◌≤◌, ◌^◌, map, length, IfOk};
ghost use Rattle.std.specs.List.{range_with_len};
ghost use Rattle.lk_tables.specs.FileView.{file_view, file_views};
ghost use Rattle.lk_tables.specs.Files.{by_section, first_section, first_symbol, section_count, section_total, symbol_total};

use crate::files::File;
use lk_base::FileNo;
use std::alloc::{AllocError, Global};

/// The number of each file's first symbol, in order of the files, and after these how many symbols there are. The only error is out of memory.
pub fn first_symbols(alloc: Global, files: &[File]) -> Result<Vec<u32>, AllocError>
    requires { symbol_total (file_views files.now) < 2 ^ 31 }
    ensures { IfOk result (λ firsts. firsts.items ≡ map (first_symbol (file_views files.now)) (range_with_len 0 (length files.now + 1))) }
{
    let mut firsts = Vec::with_capacity(alloc, files.len().saturating_add(1))?;
    let mut total: u32 = 0;
    for f in 0..files.len() {
        firsts.push(total)?;
        total += files[f].symbols().len() as u32;
    }
    firsts.push(total)?;
    Ok(firsts)
}

/// The number of each file's first section, in order of the files, and after these how many sections there are. The only error is out of memory.
pub fn first_sections(alloc: Global, files: &[File]) -> Result<Vec<u32>, AllocError>
    requires { section_total (file_views files.now) ≤ 2 ^ 28 }
    ensures { IfOk result (λ firsts. firsts.items ≡ map (first_section (file_views files.now)) (range_with_len 0 (length files.now + 1))) }
{
    let mut firsts = Vec::with_capacity(alloc, files.len().saturating_add(1))?;
    let mut total: u32 = 0;
    for f in 0..files.len() {
        firsts.push(total)?;
        total += section_count(&files[f]) as u32;
    }
    firsts.push(total)?;
    Ok(firsts)
}

/// The file of each section number, by the numbers of the files' first sections.
pub fn section_files(
    alloc: Global,
    files: &[File],
    firsts: &[u32],
) -> Result<Vec<FileNo>, AllocError>
    requires few { length files.now < 2 ^ 24 }
    requires firsts { firsts.now ≡ map (first_section (file_views files.now)) (range_with_len 0 (length files.now + 1)) }
    ensures { IfOk result (λ owners. owners.items ≡ by_section (file_views files.now) (λ file index. file)) }
{
    let mut owners = Vec::with_capacity(alloc, firsts[files.len()] as usize)?;
    for f in 0..files.len() {
        owners.resize(firsts[f + 1] as usize, f as u32)?;
    }
    Ok(owners)
}

/// How many section numbers a file has: its own sections, and one for each of its COMMON symbols; none if it takes no part.
pub fn section_count(file: &File) -> usize
    ensures { result ≡ section_count (file_view file.now) }
{
    if !file.is_live() {
        return 0;
    }
    file.sections().len() + file.commons()
}
