//! What symbols take their addresses from.

ghost use Rattle.std.specs.Prelude.{◌≡◌, ℕ, ◌<◌, ◌≤◌, length, true};
ghost use Rattle.std.proofs.Props.{props};
ghost use Rattle.lk_base.specs.declared.abi.TheConstants.{NOBITS_MAX};
ghost use Rattle.lk_tables.specs.declared.bounds.Bound.TheVariants.{InSection};
ghost use Rattle.lk_tables.specs.Files.{file_at};
ghost use Rattle.lk_tables.specs.Targets.{bound};
ghost use Rattle.link_sections.specs.Addresses as spec;
ghost use Rattle.link_sections.specs.Sound.{IsSound};
ghost use Rattle.symbol_addresses.specs.Extents.{fixed_addresses};
ghost use Rattle.link_sections.specs.Links.{link_binding, link_files, link_laid, link_leaders};
ghost use Rattle.symbol_addresses.specs.Noted.{AreExtents, extents_of};

use crate::bytes::of_byte;
use crate::extents::Extents;
use crate::names::name_of;
use link_sections::{LaidLink, number_at};
use lk_base::{FileNo, SymNo};
use lk_tables::{Bound, bound_section, is_stop};

/// The tables of a link that is laid out, and what of the linker's own symbols is found once for all symbols.
#[derive(Clone, Copy)]
pub struct Sources<'t, 'a> {
    pub link: LaidLink<'t, 'a>,
    /// By their numbers the addresses of the symbols of fixed names.
    pub fixed: &'t [u64],
    /// Where the output sections of each name start and end.
    pub extents: &'t Extents<'a>,

    ghost near: { (f i section offset : ℕ) → f < length (link_files link) → (file_at (link_files link) f).live ≡ true → bound (link_files link) (link_binding link) f i ≡ InSection section offset → offset ≤ NOBITS_MAX } by { Prim.hlevel props },
    ghost sound: { IsSound (link_files link) (link_binding link) (link_leaders link) (link_laid link) } by { Prim.hlevel props },
    ghost by_number: { fixed.now ≡ fixed_addresses (link_laid link) } by { Prim.hlevel props },
    ghost by_name: { AreExtents (link_laid link).places (extents_of extents.now) } by { Prim.hlevel props },
}

/// The address of a symbol of a file; 0 if the file takes no part.
#[tactic(auto, unfolding(link_sections::specs::Addresses::symbol_address))]
pub fn symbol_in(sources: &Sources, file: FileNo, symbol: SymNo) -> u64
    requires file { file < length (link_files sources.now.link) }
    ensures { result ≡ spec.symbol_address (link_files sources.now.link) (link_binding sources.now.link) (link_leaders sources.now.link) (link_laid sources.now.link) file symbol }
{
    let link = &sources.link;
    if !link.tables.file(file).is_live() {
        return 0;
    }
    address_of(sources, link.binding.bound(link.tables, file, symbol))
}

/// The address of what a symbol stands for, or its number.
fn address_of(sources: &Sources, bound: Bound) -> u64
    requires near { (section offset : ℕ) → bound ≡ InSection section offset → offset ≤ NOBITS_MAX }
    ensures { result ≡ spec.address_of (link_files sources.now.link) (link_binding sources.now.link) (link_leaders sources.now.link) (link_laid sources.now.link) bound }
{
    match bound {
        Bound::InSection { section, offset } => of_byte(&sources.link, section, offset) as u64,
        Bound::Number(number) => number,
        Bound::Linker(number) => linker_address(sources, number),
        Bound::Nobody => 0,
    }
}

/// The address of a symbol of the linker's own, by its number.
#[tactic(auto, unfolding(link_sections::specs::Addresses::linker_address, link_sections::specs::Addresses::bound_address))]
fn linker_address(sources: &Sources, number: u32) -> u64
    ensures { result ≡ spec.linker_address (link_files sources.now.link) (link_binding sources.now.link) (link_leaders sources.now.link) (link_laid sources.now.link) number }
{
    let Some(section) = bound_section(number) else {
        return number_at(sources.fixed, number as usize);
    };
    let extent = sources.extents.get(name_of(&sources.link, section));
    if is_stop(number) {
        extent.end
    } else {
        extent.start
    }
}
