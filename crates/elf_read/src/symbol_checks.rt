//! What is asked of the symbols of a file that is linked (System V gABI, "Symbol Table").

ghost use Rattle.std.specs.Prelude.{◌≡◌, ◌+◌, ◌*◌, ◌<◌, ◌≤◌, length};
ghost use Rattle.lk_base.specs.declared.abi.TheConstants.{SYM_SIZE};
ghost use Rattle.lk_tables.specs.Bodies as read;
ghost use Rattle.lk_tables.specs.Checks.{passes};
ghost use Rattle.lk_tables.specs.FileHeader.{header as header_of};
ghost use Rattle.lk_tables.specs.Symbols as symbols;

use crate::header::{flaw, reject};
use crate::section_checks::is_bad_alignment;
use crate::sound_file::SoundFile;
use lk_base::Flaw;
use lk_base::abi::{NOBITS_MAX, STT_GNU_IFUNC, SYM_SIZE};
use lk_base::kinds::{BAD_ALIGNMENT, IFUNC, LIMIT};
use lk_tables::{Place, is_common};

/// The checks of all symbols.
pub fn check_uses(file: &SoundFile) -> Result<(), Flaw>
    ensures { result ≡ passes (read.all_use_checks file.now.bytes.now) }
{
    if file.symtab == 0 {
        return Ok(());
    }
    check_each_use(file, file.section(file.symtab).offset as usize)
}

/// The checks of all symbols of a table that starts at `from`.
fn check_each_use(file: &SoundFile, from: usize) -> Result<(), Flaw>
    requires from { from ≡ (header_of file.now.bytes.now (symbols.symtab_of file.now.bytes.now)).offset }
    requires within { from + SYM_SIZE * length file.now.symbols.now ≤ length file.now.bytes.now }
    ensures { result ≡ passes (read.all_use_checks file.now.bytes.now) }
{
    for index in 0..file.symbols.len() {
        check_use(file, from, index)?;
    }
    Ok(())
}

/// The checks of one symbol; `from` is where the symbol table starts.
#[tactic(auto, unfolding(lk_tables::specs::Bodies::use_checks))]
fn check_use(file: &SoundFile, from: usize, index: usize) -> Result<(), Flaw>
    requires index { index < length file.now.symbols.now }
    requires from { from ≡ (header_of file.now.bytes.now (symbols.symtab_of file.now.bytes.now)).offset }
    requires within { from + SYM_SIZE * length file.now.symbols.now ≤ length file.now.bytes.now }
    ensures { result ≡ passes (read.use_checks file.now.bytes.now index) }
{
    if index == 0 {
        return Ok(());
    }
    let symbol = file.symbol(index);
    let place = from + SYM_SIZE as usize * index;
    let common = is_common(&symbol);
    reject(
        symbol.sort == STT_GNU_IFUNC && !is_undef(symbol.place),
        flaw(IFUNC, file.symtab, place),
    )?;
    reject(
        common && is_bad_alignment(symbol.value),
        flaw(BAD_ALIGNMENT, file.symtab, place),
    )?;
    reject(
        common && NOBITS_MAX < symbol.size,
        flaw(LIMIT, file.symtab, place),
    )
}

/// Whether a symbol is defined elsewhere.
fn is_undef(place: Place) -> bool
    ensures { result ≡ symbols.is_undef place }
{
    matches!(place, Place::Undef)
}
