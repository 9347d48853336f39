//! The entries that the sections of a link ask for.

ghost use Rattle.std.specs.Prelude.{◌≡◌, ◌<◌, [], List, false, length, flat_map, slice_index_or, IfOk, OnOk};
ghost use Rattle.lk_tables.specs.declared.objects.Reloc.{Reloc};
ghost use Rattle.lk_tables.specs.Files.{file_at, section_total};
ghost use Rattle.lk_tables.specs.NameNumbers.{NumbersNames, heads_alone};
ghost use Rattle.lk_tables.specs.TablesView.{files_of};
ghost use Rattle.lk_tables.specs.Uppers.{AreListed, section_uppers};
ghost use Rattle.link_sections.specs.GotView.{entries_of};
ghost use Rattle.link_sections.specs.GotUses.{HasAllUses};
ghost use Rattle.got_tls.specs.GotList.{all_added, got_of, wanted_by, wanted_in};

use link_sections::{Got, key_of, leads, use_of};
use lk_base::{FileNo, SecNo};
use lk_tables::{NameNumbers, Reloc, Tables, Uppers};
use std::alloc::{AllocError, Global};

/// The linker's global offset table: an entry for each symbol and use for which a relocation asks of a section that is its own leader, in order
/// of the first such relocation, by section number and then by the section's stable order of offset. A local symbol has entries of its own;
/// others share those of their name. `leaders` are by section number. What goes by the table is an upper part, so a section that has none among
/// `uppers` is not read. The only error is out of memory.
pub fn entries(
    alloc: Global,
    tables: &Tables,
    numbers: &NameNumbers,
    uppers: &Uppers,
    leaders: &[Option<SecNo>],
) -> Result<Got, AllocError>
    requires numbers { NumbersNames (heads_alone (files_of tables.now)) numbers.now }
    requires uppers { AreListed (section_uppers (files_of tables.now)) uppers.now }
    ensures value { IfOk result (λ got. entries_of got ≡ got_of (files_of tables.now) leaders.now) }
    ensures law { IfOk result (λ got. HasAllUses (files_of tables.now) leaders.now (entries_of got)) }
{
    tables.prove_few();
    let mut got = Got::empty(alloc);
    for section in 0..tables.section_count() as u32 {
        add_by_uppers(&mut got, tables, numbers, uppers, leaders, section)?;
    }
    Ok(got)
}

/// Adds what the relocations of a section ask for, if it is its own leader and has an upper part.
fn add_by_uppers(
    got: &mut Got,
    tables: &Tables,
    numbers: &NameNumbers,
    uppers: &Uppers,
    leaders: &[Option<SecNo>],
    section: SecNo,
) -> Result<(), AllocError>
    requires numbers { NumbersNames (heads_alone (files_of tables.now)) numbers.now }
    requires uppers { AreListed (section_uppers (files_of tables.now)) uppers.now }
    requires section { section < section_total (files_of tables.now) }
    ensures { OnOk result (entries_of got.new ≡ all_added (entries_of got.old) (wanted_in (files_of tables.now) leaders.now section)) }
{
    if has_uppers(uppers, section) {
        return add_section(got, tables, numbers, leaders, section);
    }
    Ok(())
}

/// Whether the list of a section's number has an upper part.
fn has_uppers(uppers: &Uppers, section: SecNo) -> bool
    ensures { result ≡ false → (lists : List (List Reloc)) → AreListed lists uppers.now → section < length lists → slice_index_or lists section [] ≡ [] }
{
    let first = uppers.first_at(section as usize);
    let next = uppers.first_at(section as usize + 1);
    first < next
}

/// Adds what the relocations of a section ask for, if it is its own leader.
#[tactic(auto, unfolding(crate::specs::GotList::wanted_in))]
fn add_section(
    got: &mut Got,
    tables: &Tables,
    numbers: &NameNumbers,
    leaders: &[Option<SecNo>],
    section: SecNo,
) -> Result<(), AllocError>
    requires numbers { NumbersNames (heads_alone (files_of tables.now)) numbers.now }
    requires section { section < section_total (files_of tables.now) }
    ensures { OnOk result (entries_of got.new ≡ all_added (entries_of got.old) (wanted_in (files_of tables.now) leaders.now section)) }
{
    if !leads(leaders, section as usize) {
        return Ok(());
    }
    let place = tables.place_of(section);
    let relocs = tables.relocs(place.file, place.index);
    for k in 0..relocs.len() {
        add_reloc(got, tables, numbers, place.file, &relocs[k])?;
    }
    Ok(())
}

/// Adds what a relocation of a file asks for, if it goes by the table.
#[tactic(auto, unfolding(crate::specs::GotList::wanted_by))]
fn add_reloc(
    got: &mut Got,
    tables: &Tables,
    numbers: &NameNumbers,
    file: FileNo,
    reloc: &Reloc,
) -> Result<(), AllocError>
    requires numbers { NumbersNames (heads_alone (files_of tables.now)) numbers.now }
    requires file { file < length (files_of tables.now) }
    requires symbol { reloc.now.symbol < length (file_at (files_of tables.now) file).head.symbols }
    ensures { OnOk result (entries_of got.new ≡ all_added (entries_of got.old) (wanted_by (files_of tables.now) file reloc.now)) }
{
    tables.prove_few();
    let Some(usage) = use_of(reloc.kind) else {
        return Ok(());
    };
    got.add(
        key_of(tables, numbers, file, reloc.symbol),
        usage,
        file,
        reloc.symbol,
    )
}
