//! The relocations of all sections by number, those of one section after those of the section before it.

ghost use Rattle.std.specs.Prelude.{◌≡◌, ℕ, ◌+◌, ◌-◌, ◌<◌, ◌≤◌, ◌++◌, length, max, sum, take, flat_map, slice_index, IfOk, OnOk};
ghost use Rattle.std.specs.List.{range_with_len};
ghost use Rattle.lk_tables.specs.Files.{by_section, file_at, relocs_at, section_total};
ghost use Rattle.lk_tables.specs.Sites.{relocs_of};
ghost use Rattle.lk_tables.specs.TablesView.{files_of};
ghost use Rattle.lk_tables.proofs.ByNumber.{section_row};
ghost use Rattle.work_split.specs.Pieces.{Tiles};

use lk_base::FileNo;
use lk_tables::{Tables, section_count};
use std::alloc::{AllocError, Global};
use std::ops::Range;
use work_split::pieces;

/// The number of the first relocation of each section, by the section's number, and at the end how many relocations there are in all.
pub fn first_numbers(alloc: Global, tables: &Tables) -> Result<Vec<u64>, AllocError>
    ensures count { IfOk result (λ firsts. length firsts.items ≡ section_total (files_of tables.now) + 1) }
    ensures firsts { IfOk result (λ firsts. (n : ℕ) → n ≤ section_total (files_of tables.now) → slice_index firsts.items n ≡ length (flat_map (relocs_of (files_of tables.now)) (range_with_len 0 n))) }
{
    let mut counts = reloc_counts(alloc, tables)?;
    add_up(&mut counts)?;
    Ok(counts)
}

/// How many relocations each section has, by its number. There is room for one more number.
fn reloc_counts(alloc: Global, tables: &Tables) -> Result<Vec<u64>, AllocError>
    ensures { IfOk result (λ counts. counts.items ≡ by_section (files_of tables.now) (λ f k. length (relocs_at (file_at (files_of tables.now) f) k))) }
{
    tables.prove_few();
    let mut counts = Vec::with_capacity(alloc, tables.section_count() + 1)?;
    for file in 0..tables.file_count() as u32 {
        push_counts(&mut counts, tables, file)?;
    }
    Ok(counts)
}

/// Adds how many relocations each section of one file has.
fn push_counts(counts: &mut Vec<u64>, tables: &Tables, file: FileNo) -> Result<(), AllocError>
    requires { file < length (files_of tables.now) }
    ensures { OnOk result (counts.new.items ≡ counts.old.items ++ section_row (files_of tables.now) (λ f k. length (relocs_at (file_at (files_of tables.now) f) k)) file) }
{
    tables.prove_few();
    for section in 0..section_count(tables.file(file)) {
        counts.push(tables.relocs(file, section as u32).len() as u64)?;
    }
    Ok(())
}

/// Puts the sum of the counts before it in the place of each count, and that of all at the end.
fn add_up(counts: &mut Vec<u64>) -> Result<(), AllocError>
    ensures count { OnOk result (length counts.new.items ≡ length counts.old.items + 1) }
    ensures sums { OnOk result ((n : ℕ) → n ≤ length counts.old.items → slice_index counts.new.items n ≡ sum (take n counts.old.items)) }
{
    let mut total = 0;
    for n in 0..counts.len() {
        let count = counts[n];
        counts[n] = total;
        total = sum_of(total, count)?;
    }
    counts.push(total)?;
    Ok(())
}

/// Two counts together.
fn sum_of(count: u64, more: u64) -> Result<u64, AllocError>
    ensures { IfOk result (λ both. both ≡ count + more) }
{
    match count.checked_add(more) {
        Some(both) => Ok(both),
        None => Err(AllocError),
    }
}

/// All numbers cut into pieces of about the same length, one for each worker, and one number at least for each. Numbers past the last
/// relocation stand for none.
pub fn pieces_of(
    alloc: Global,
    firsts: &[u64],
    workers: u32,
) -> Result<Vec<Range<usize>>, AllocError>
    requires some { 1 ≤ workers }
    requires most { workers ≤ 64 }
    requires firsts { 0 < length firsts.now }
    ensures tiles { IfOk result (λ pieces. Tiles 0 (max (slice_index firsts.now (length firsts.now - 1)) workers) pieces.items) }
    ensures most { IfOk result (λ pieces. length pieces.items ≤ 64) }
{
    let count = firsts[firsts.len() - 1] as usize;
    pieces(alloc, count.max(workers as usize), workers)
}

/// The number of a section whose relocations do not begin past a number: the last such one.
pub fn section_of(firsts: &[u64], number: u64) -> usize
    requires some { 0 < length firsts.now }
    requires first { slice_index firsts.now 0 ≤ number }
    ensures within { result < length firsts.now }
    ensures before { slice_index firsts.now result ≤ number }
{
    let last = firsts
        .partition_point(|first| *first <= number)
        .saturating_sub(1);
    if number < firsts[last] {
        return 0;
    }
    last
}
