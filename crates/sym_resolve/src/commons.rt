//! COMMON symbols that get room.

ghost use Rattle.std.specs.Prelude.{◌≡◌, ◌<◌, ◌++◌, true, length, map, IfOk, OnOk};
ghost use Rattle.std.specs.List.{range_with_len};
ghost use Rattle.lk_tables.specs.Symbols.{is_common};
ghost use Rattle.lk_tables.specs.Files.{common_no, file_at, symbol_at};
ghost use Rattle.lk_tables.specs.NameNumbers.{NumbersNames, heads_alone};
ghost use Rattle.lk_tables.specs.TablesView.{files_of};
ghost use Rattle.sym_resolve.specs.Asks.{common_by, common_from};
ghost use Rattle.sym_resolve.specs.Symbols.{in_file};

use crate::counts::{common_count, file};
use crate::ranks::symbol_rank;
use crate::rooms::{Room, room_at, rooms_of};
use lk_base::SecNo;
use lk_tables::{BoundCommon, NameNumbers, Tables, is_common, rank_of};
use std::alloc::{AllocError, Global};

/// The class of the offers of COMMON symbols.
const COMMON: u64 = 1;

/// For each file its COMMON symbols to which their names are bound, by the least rank of each word, with the room that they get.
pub fn commons_of(
    alloc: Global,
    tables: &Tables,
    names: &NameNumbers,
    least: &[u64],
) -> Result<Vec<Vec<BoundCommon>>, AllocError>
    requires numbered { NumbersNames (heads_alone (files_of tables.now)) names.now }
    ensures { IfOk result (λ commons. map (λ list. list.items) commons.items ≡ map (in_file (files_of tables.now) (common_by (files_of tables.now) least.now)) (range_with_len 0 (length (files_of tables.now)))) }
{
    let rooms = rooms_of(alloc, tables, names)?;
    let mut commons = Vec::with_capacity(alloc, tables.file_count())?;
    for f in 0..tables.file_count() {
        commons.push(commons_in(alloc, tables, names, least, rooms.as_slice(), f)?)?;
    }
    Ok(commons)
}

// The bound COMMON symbols of one file; none if it takes no part.
fn commons_in(
    alloc: Global,
    tables: &Tables,
    names: &NameNumbers,
    least: &[u64],
    rooms: &[Room],
    f: usize,
) -> Result<Vec<BoundCommon>, AllocError>
    requires numbered { NumbersNames (heads_alone (files_of tables.now)) names.now }
    requires file { f < length (files_of tables.now) }
    ensures { IfOk result (λ commons. commons.items ≡ in_file (files_of tables.now) (common_from (files_of tables.now) least.now rooms.now) f) }
{
    tables.prove_few();
    let mut commons = Vec::new(alloc);
    if common_count(tables, f) == 0 {
        return Ok(commons);
    }
    let file = file(tables, f);
    let mut section = tables.section_no(f, file.sections().len()) as u32;
    for i in 0..file.symbols().len() {
        if is_common(&file.symbol(i)) {
            push_common(&mut commons, tables, names, least, rooms, f, i, section)?;
            section += 1;
        }
    }
    Ok(commons)
}

// A COMMON symbol, if its name is bound to it; `section` is its number among the sections.
fn push_common(
    commons: &mut Vec<BoundCommon>,
    tables: &Tables,
    names: &NameNumbers,
    least: &[u64],
    rooms: &[Room],
    f: usize,
    i: usize,
    section: SecNo,
) -> Result<(), AllocError>
    requires numbered { NumbersNames (heads_alone (files_of tables.now)) names.now }
    requires file { f < length (files_of tables.now) }
    requires symbol { i < length (file_at (files_of tables.now) f).head.symbols }
    requires common { is_common (symbol_at (file_at (files_of tables.now) f) i).place ≡ true }
    requires section { section ≡ common_no (files_of tables.now) f i }
    ensures { OnOk result (commons.new.items ≡ commons.old.items ++ common_from (files_of tables.now) least.now rooms.now f i) }
{
    tables.prove_few();
    if symbol_rank(tables, names, least, f, i) == rank_of(COMMON, f, i) {
        let room = room_at(rooms, names.number(f, i));
        commons.push(BoundCommon {
            file: f as u32,
            symbol: i as u32,
            section,
            size: room.size,
            align: room.align,
        })?;
    }
    Ok(())
}
