//! The addresses of the linker's symbols that are no section's (the conventions of GNU ld's scripts; RISC-V ELF psABI, "Global Pointer").

ghost use Rattle.std.specs.Prelude.{◌≡◌, ◌+◌, codes, IfOk};
ghost use Rattle.link_sections.specs.Addresses as spec;
ghost use Rattle.symbol_addresses.specs.Extents.{HasRoom, fixed_addresses};
ghost use Rattle.link_sections.specs.Links.{link_laid};

use crate::places::{array_in, rw_place, start_or};
use link_sections::LaidLink;
use lk_base::abi::IMAGE_BASE;
use lk_tables::{Edge, FIXED_COUNT, edge_of};
use std::alloc::{AllocError, Global};

/// The address of a symbol of the linker's that is no section's.
#[tactic(auto, unfolding(link_sections::specs::Addresses::edge_address, link_sections::specs::LaidOut::with_contents, link_sections::specs::LaidOut::layout_view, crate::specs::Extents::array_extent))]
pub fn edge_address(link: &LaidLink, edge: Edge) -> u64
    requires { HasRoom (link_laid link.now) }
    ensures { result ≡ spec.edge_address (link_laid link.now) edge }
{
    match edge {
        Edge::ImageStart => IMAGE_BASE,
        Edge::CodeEnd => link.layout.bounds.rx_end,
        Edge::BitsEnd => link.layout.bounds.bits_end,
        Edge::NobitsEnd => link.layout.bounds.nobits_end,
        Edge::Table => link.layout.got,
        Edge::GlobalPointer => global_pointer(link),
        Edge::PreinitStart => array_in(link, b".preinit_array").start,
        Edge::PreinitEnd => array_in(link, b".preinit_array").end,
        Edge::InitStart => array_in(link, b".init_array").start,
        Edge::InitEnd => array_in(link, b".init_array").end,
        Edge::FiniStart => array_in(link, b".fini_array").start,
        Edge::FiniEnd => array_in(link, b".fini_array").end,
        Edge::FrameStart => link.layout.bounds.frames,
    }
}

/// What the global pointer register holds: 2 KiB past the start of the small data, so that twelve bits reach 4 KiB of it.
fn global_pointer(link: &LaidLink) -> u64
    requires { HasRoom (link_laid link.now) }
    ensures { result ≡ spec.start_or (link_laid link.now).bounds.tls_bits_end (spec.rw_place (link_laid link.now) (codes ".sdata")) + 0x800 }
{
    let small = rw_place(link, b".sdata");
    start_or(link.layout.bounds.tls_bits_end, small) + 0x800
}

/// The addresses of all of them, by the numbers of the symbols.
#[tactic(auto, unfolding(crate::specs::Extents::fixed_addresses))]
pub fn find_fixed(alloc: Global, link: &LaidLink) -> Result<Vec<u64>, AllocError>
    requires { HasRoom (link_laid link.now) }
    ensures { IfOk result (λ list. list.items ≡ fixed_addresses (link_laid link.now)) }
{
    let mut list = Vec::with_capacity(alloc, FIXED_COUNT as usize)?;
    for number in 0..FIXED_COUNT {
        list.push(edge_address(link, edge_of(number)))?;
    }
    Ok(list)
}
