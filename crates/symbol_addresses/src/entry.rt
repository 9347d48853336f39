//! The address at which an executable starts.

ghost use Rattle.std.specs.Prelude.{◌≡◌, pos};
ghost use Rattle.link_sections.specs.Addresses as spec;
ghost use Rattle.link_sections.specs.Links.{link_binding, link_files, link_laid, link_leaders};
ghost use Rattle.symbol_addresses.specs.Extents.{HasRoom};

use crate::bytes::of_byte;
use crate::edges::edge_address;
use crate::names::name_of;
use crate::places::extent_in;
use link_sections::LaidLink;
use lk_base::low_bits;
use lk_tables::{Bound, bound_section, edge_of, is_stop};

/// The address at which the executable starts: that of what the entry's name is bound to.
#[tactic(auto, unfolding(link_sections::specs::Addresses::entry_address))]
pub fn entry_address(link: &LaidLink) -> u64
    requires { HasRoom (link_laid link.now) }
    ensures { result ≡ spec.entry_address (link_files link.now) (link_binding link.now) (link_leaders link.now) (link_laid link.now) }
{
    low_bits(wide_address(link, link.binding.entry_bound(link.tables)))
}

/// The address of what a name stands for, or its number, in more bits than any sum takes.
fn wide_address(link: &LaidLink, bound: Bound) -> i128
    requires { HasRoom (link_laid link.now) }
    ensures { result ≡ pos (spec.address_of (link_files link.now) (link_binding link.now) (link_leaders link.now) (link_laid link.now) bound) }
{
    match bound {
        Bound::InSection { section, offset } => of_byte(link, section, offset),
        Bound::Number(number) => number as i128,
        Bound::Linker(number) => linker_address(link, number) as i128,
        Bound::Nobody => 0,
    }
}

/// The address of a symbol of the linker's own, by its number.
#[tactic(auto, unfolding(link_sections::specs::Addresses::linker_address, link_sections::specs::Addresses::bound_address, crate::specs::Extents::extent_of))]
fn linker_address(link: &LaidLink, number: u32) -> u64
    requires { HasRoom (link_laid link.now) }
    ensures { result ≡ spec.linker_address (link_files link.now) (link_binding link.now) (link_leaders link.now) (link_laid link.now) number }
{
    let Some(section) = bound_section(number) else {
        return edge_address(link, edge_of(number));
    };
    let extent = extent_in(link, name_of(link, section));
    if is_stop(number) {
        extent.end
    } else {
        extent.start
    }
}
