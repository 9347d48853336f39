//! What the bytes of a section in the executable are made from.

ghost use Rattle.std.specs.Prelude.{◌≡◌, true};
ghost use Rattle.lk_base.specs.declared.abi.TheConstants.{SHT_NOBITS};
ghost use Rattle.link_sections.specs.Views.{by_view, files_in};
ghost use Rattle.reloc_apply.specs.Relocated.{contents_at, has_bits, is_laid};
ghost use Rattle.reloc_apply.specs.Sites.{IsSite, IsSource};

use crate::sites::{Site, relocs_at, site_of};
use link_sections::{Cut, View, input_in, start_of};
use lk_base::SecNo;
use lk_base::abi::{IMAGE_BASE, SHT_NOBITS};
use lk_tables::{Reloc, contents_of};

/// A section with bytes in its file, which stand in the executable.
#[derive(Clone, Copy)]
pub struct Source<'t, 'a> {
    pub site: Site,
    /// The file offset of its first byte in the executable.
    pub at: u64,
    /// Its bytes in its own file.
    pub raw: &'a [u8],
    /// Where it loses bytes.
    pub cuts: &'t [Cut],
    /// Its relocations, in order of offset.
    pub relocs: &'t [Reloc],
}

/// What a section is made from, by its number.
pub fn source_of<'t, 'a>(view: &View<'t, 'a>, section: SecNo) -> Source<'t, 'a>
    requires { by_view is_laid view.now section ≡ true }
    ensures source { by_view IsSource view.now result }
    ensures section { result.site.section ≡ section }
{
    let site = site_of(view.tables, section);
    Source {
        site,
        at: start_of(view.layout, section) - IMAGE_BASE,
        raw: contents(view, site),
        cuts: view.layout.sizes.cuts(section),
        relocs: relocs_at(view.tables, site),
    }
}

/// The bytes of a section in its file.
pub fn contents<'a>(view: &View<'_, 'a>, site: Site) -> &'a [u8]
    requires { IsSite (files_in view.now) site }
    ensures { result.now ≡ by_view contents_at view.now site.section }
{
    let entry = view.tables.file(site.place.file);
    let header = entry.section(site.place.index as usize);
    contents_of(entry.bytes(), &header)
}

/// Whether a section has bytes in its file.
pub fn has_bits(view: &View, site: Site) -> bool
    requires { IsSite (files_in view.now) site }
    ensures { result ≡ by_view has_bits view.now site.section }
{
    input_in(view.tables, view.binding, site.place.file, site.place.index).sh_type != SHT_NOBITS
}
