//! The head of an object: what is read of each file.

ghost use Rattle.std.specs.Prelude.{◌≡◌, Ok, Err, IfOk};
ghost use Rattle.lk_base.specs.declared.defects.Flaw.{Flaw as FlawOf};
ghost use Rattle.lk_tables.specs.Checks.{Gives, IsFirstBroken};
ghost use Rattle.lk_tables.specs.Heads.{HeadView, head_view, head_of, head_checks, HeadOf};
ghost use Rattle.lk_base.specs.declared.defects.ReadFault.TheVariants.{Bad};

use crate::header::open;
use crate::sections::read_sections;
use crate::symbols::read_symbols;
use lk_base::ReadFault;
use lk_tables::ehdr::E_FLAGS;
use lk_tables::{Head, common_count, word_at};
use std::alloc::Global;

/// Reads the file header, the section table and the symbol table of a relocatable object for 64-bit RISC-V.
///
/// The answer is the head whose fields are the numbers at their places, if no check is broken; else the first
/// broken check in the order of `head_checks`, with its place; or that memory ran out. Names are spans of the input,
/// which name no file and count from its first byte.
pub fn read_head(alloc: Global, bytes: &[u8]) -> Result<Head, ReadFault>
    // What is read, and which flaw it is.
    ensures exact { Gives head_view result (head_of bytes.now) }
    // What is read is the head of these bytes.
    ensures found { IfOk result (λ head. HeadOf bytes.now (head_view head)) }
    // The head of these bytes is read, unless memory runs out.
    ensures only { (head : HeadView) → HeadOf bytes.now head → Gives head_view result (Ok head) }
    // A flaw is that of the first broken check.
    ensures refused { (flaw : FlawOf) → result ≡ Err (Bad flaw) → IsFirstBroken (head_checks bytes.now) flaw }
    // The first broken check is reported, unless memory runs out.
    ensures broken { (flaw : FlawOf) → IsFirstBroken (head_checks bytes.now) flaw → Gives head_view result (Err flaw) }
{
    read(alloc, bytes)
}

/// The head of a file, or its first broken check.
#[tactic(auto, unfolding(lk_tables::specs::Heads::head_of, lk_tables::specs::Heads::head_checks, lk_tables::specs::Heads::fields_of))]
fn read(alloc: Global, bytes: &[u8]) -> Result<Head, ReadFault>
    ensures { Gives head_view result (head_of bytes.now) }
{
    let file = open(bytes)?;
    let sections = read_sections(alloc, &file)?;
    let symbols = read_symbols(
        alloc,
        &file,
        sections.list.as_slice(),
        sections.symtab,
        sections.index_table,
    )?;
    let commons = common_count(symbols.as_slice());
    Ok(Head {
        flags: word_at(bytes, E_FLAGS),
        sections: sections.list,
        symtab: sections.symtab,
        symbols,
        commons,
    })
}
