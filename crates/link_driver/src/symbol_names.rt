//! The name of a symbol as the line of a defect shows it.

ghost use Rattle.std.specs.Prelude.{◌≡◌, IfOk};
ghost use Rattle.lk_tables.specs.Heads.{head_view};
ghost use Rattle.link_driver.specs.Link.{section_name, section_name_by, shown_in, shown_name, shown_symbol};

use elf_read::read_head;
use lk_base::{ReadFault, SymNo};
use lk_tables::{Head, Place, Symbol, is_section_symbol, text_of};
use std::alloc::{AllocError, Global};

/// The name of a symbol of a file, whose head is read once more for it.
#[tactic(auto, unfolding(crate::specs::Link::shown_in))]
pub fn symbol_name<'a>(alloc: Global, bytes: &'a [u8], index: SymNo) -> Result<&'a [u8], AllocError>
    ensures { IfOk result (λ name. name.now ≡ shown_in bytes.now index) }
{
    match read_head(alloc, bytes) {
        Ok(head) => Ok(name_in(bytes, &head, index)),
        Err(ReadFault::Bad(_)) => Ok(&[]),
        Err(ReadFault::Memory) => Err(AllocError),
    }
}

/// The name of a symbol by its number, empty if there is none of this number.
fn name_in<'a>(bytes: &'a [u8], head: &Head, index: SymNo) -> &'a [u8]
    ensures { result.now ≡ shown_symbol bytes.now (head_view head.now) index }
{
    match head.symbols.get(index as usize) {
        Some(symbol) => shown_name(bytes, head, symbol),
        None => &[],
    }
}

/// The name of a symbol; a SECTION symbol has that of its section.
fn shown_name<'a>(bytes: &'a [u8], head: &Head, symbol: &Symbol) -> &'a [u8]
    ensures { result.now ≡ shown_name bytes.now (head_view head.now) symbol.now }
{
    if is_section_symbol(symbol) {
        return section_name_by(bytes, head, symbol.place);
    }
    text_of(bytes, &symbol.name)
}

/// The name of the section in which a symbol stands, empty if it stands in none.
fn section_name_by<'a>(bytes: &'a [u8], head: &Head, place: Place) -> &'a [u8]
    ensures { result.now ≡ section_name_by bytes.now (head_view head.now) place }
{
    match place {
        Place::Within(section) => section_name(bytes, head, section),
        Place::Undef => &[],
        Place::Absolute => &[],
        Place::Common => &[],
    }
}

/// The name of a section by its number, empty if there is none of this number.
fn section_name<'a>(bytes: &'a [u8], head: &Head, section: u32) -> &'a [u8]
    ensures { result.now ≡ section_name bytes.now (head_view head.now) section }
{
    match head.sections.get(section as usize) {
        Some(section) => text_of(bytes, &section.name),
        None => &[],
    }
}
