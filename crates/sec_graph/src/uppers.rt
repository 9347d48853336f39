//! The upper parts of a link, listed once, so that a lower part finds its own by bisection.

ghost use Rattle.std.specs.Prelude.{◌≡◌, ◌++◌, ◌<◌, ◌∷◌, [], filter, length, IfOk, OnOk, List};
ghost use Rattle.lk_base.specs.RelocKinds.{is_upper};
ghost use Rattle.lk_tables.specs.declared.objects.Reloc.{Reloc};
ghost use Rattle.lk_tables.specs.TablesView.{files_of};
ghost use Rattle.lk_tables.specs.Uppers.{AreListed, section_uppers, uppers_at};
ghost use Rattle.lk_tables.proofs.ByNumber.{section_row};

use lk_base::FileNo;
use lk_base::relocations::is_upper;
use lk_tables::{Reloc, Tables, Uppers, section_count};
use std::alloc::{AllocError, Global};

/// The upper parts of each section, by its number: relocations of the kinds 20 to 23, to which others refer by a label (RISC-V ELF psABI,
/// "Relocations"), in order of offset, and of one offset in that of the file. The only error is out of memory.
pub fn find_uppers(alloc: Global, tables: &Tables) -> Result<Uppers, AllocError>
    ensures { IfOk result (λ uppers. AreListed (section_uppers (files_of tables.now)) uppers) }
{
    tables.prove_few();
    let mut uppers = Uppers {
        firsts: Vec::with_capacity(alloc, tables.section_count() + 1)?,
        list: Vec::new(alloc),
    };
    uppers.firsts.push(0)?;
    for file in 0..tables.file_count() as u32 {
        add_file(&mut uppers, tables, file)?;
    }
    Ok(uppers)
}

/// Adds the lists of one file's sections.
fn add_file(uppers: &mut Uppers, tables: &Tables, file: FileNo) -> Result<(), AllocError>
    requires { file < length (files_of tables.now) }
    ensures { OnOk result ((lists : List (List Reloc)) → AreListed lists uppers.old → AreListed (lists ++ section_row (files_of tables.now) (uppers_at (files_of tables.now)) file) uppers.new) }
{
    tables.prove_few();
    for section in 0..section_count(tables.file(file)) {
        add_section(uppers, tables.relocs(file, section as u32))?;
    }
    Ok(())
}

/// Adds the list of one section.
fn add_section(uppers: &mut Uppers, relocs: &[Reloc]) -> Result<(), AllocError>
    ensures { OnOk result ((lists : List (List Reloc)) → AreListed lists uppers.old → AreListed (lists ++ filter (λ r. is_upper r.kind) relocs.now ∷ []) uppers.new) }
{
    push_uppers(&mut uppers.list, relocs)?;
    uppers.firsts.push(uppers.list.len())?;
    Ok(())
}

/// Adds the upper parts among the relocations of a section.
fn push_uppers(list: &mut Vec<Reloc>, relocs: &[Reloc]) -> Result<(), AllocError>
    ensures { OnOk result (list.new.items ≡ list.old.items ++ filter (λ r. is_upper r.kind) relocs.now) }
{
    for reloc in relocs {
        if is_upper(reloc.kind) {
            list.push(*reloc)?;
        }
    }
    Ok(())
}
