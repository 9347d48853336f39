//! Sections by their numbers.

ghost use Rattle.std.specs.Prelude.{◌≡◌, ◌<◌};
ghost use Rattle.lk_tables.specs.Files.{section_total};
ghost use Rattle.lk_tables.specs.Sites.{relocs_of};
ghost use Rattle.lk_tables.specs.TablesView.{files_of};
ghost use Rattle.reloc_apply.specs.Sites.{IsSite};

use lk_base::SecNo;
use lk_tables::{Reloc, SectionPlace, Tables};

/// A section of a link.
#[derive(Clone, Copy)]
pub struct Site {
    /// Its number.
    pub section: SecNo,
    /// Its file and its index there.
    pub place: SectionPlace,
}

/// The section of a number.
pub fn site_of(tables: &Tables, section: SecNo) -> Site
    requires { section < section_total (files_of tables.now) }
    ensures site { IsSite (files_of tables.now) result }
    ensures section { result.section ≡ section }
{
    Site {
        section,
        place: tables.place_of(section),
    }
}

/// The relocations of a section, in order of offset.
pub fn relocs_at<'t>(tables: &'t Tables<'_>, site: Site) -> &'t [Reloc]
    requires { IsSite (files_of tables.now) site }
    ensures { result.now ≡ relocs_of (files_of tables.now) site.section }
{
    tables.relocs(site.place.file, site.place.index)
}
