//! How many symbols, sections and COMMON symbols a link's files have, by the numbers of the tables.

ghost use Rattle.std.specs.Prelude.{◌≡◌, ◌<◌, ◌≤◌, length, IfOk};
ghost use Rattle.lk_tables.specs.Files.{file_at, first_section};
ghost use Rattle.lk_tables.specs.FileView.{file_view};
ghost use Rattle.lk_tables.specs.TablesView.{files_of};
ghost use Rattle.sym_resolve.specs.Symbols.{common_count};
ghost use Rattle.work_split.specs.Pieces.{Tiles};

use lk_tables::{File, Tables};
use std::alloc::{AllocError, Global};
use std::ops::Range;
use work_split::pieces_by_weight;

/// The file of a number.
pub fn file<'a, 'b>(tables: &'b Tables<'a>, f: usize) -> &'b File<'a>
    requires { f < length (files_of tables.now) }
    ensures { file_view result.now ≡ file_at (files_of tables.now) f }
{
    &tables.files()[f]
}

/// The files cut into pieces of about as many symbols each, one for each worker.
pub fn pieces_of(
    alloc: Global,
    tables: &Tables,
    workers: u32,
) -> Result<Vec<Range<usize>>, AllocError>
    requires some { 1 ≤ workers }
    requires most { workers ≤ 64 }
    ensures tiles { IfOk result (λ pieces. Tiles 0 (length (files_of tables.now)) pieces.items) }
    ensures most { IfOk result (λ pieces. length pieces.items ≤ 64) }
{
    let mut counts = Vec::with_capacity(alloc, tables.file_count())?;
    for f in 0..tables.file_count() {
        counts.push(file(tables, f).symbols().len() as u64)?;
    }
    pieces_by_weight(alloc, counts.as_slice(), workers)
}

/// The number of a file's first section; past the last file, how many sections there are.
pub fn first_section(tables: &Tables, f: usize) -> usize
    requires { f ≤ length (files_of tables.now) }
    ensures { result ≡ first_section (files_of tables.now) f }
{
    if f < tables.file_count() {
        return tables.section_no(f, 0);
    }
    tables.section_count()
}

/// How many COMMON symbols a file has; none if it takes no part. No symbol is looked at.
pub fn common_count(tables: &Tables, f: usize) -> usize
    requires { f < length (files_of tables.now) }
    ensures { result ≡ common_count (file_at (files_of tables.now) f) }
{
    tables.prove_few();
    let file = file(tables, f);
    if !file.is_live() {
        return 0;
    }
    first_section(tables, f + 1) - tables.section_no(f, file.sections().len())
}
