//! The name of a section, by its number.

ghost use Rattle.std.specs.Prelude.{◌≡◌, ◌≤◌, ◌==◌};
ghost use Rattle.std.specs.List.{list_any};
ghost use Rattle.lk_tables.specs.Files.{section_total};
ghost use Rattle.lk_tables.specs.InputSections.{input_at};
ghost use Rattle.link_sections.specs.Links.{link_binding, link_files};

use link_sections::{LaidLink, input_in, input_section};
use lk_base::SecNo;
use lk_tables::BoundCommon;

/// The name of a section.
pub fn name_of<'a>(link: &LaidLink<'_, 'a>, section: SecNo) -> &'a [u8]
    ensures { result.now ≡ (input_at (link_files link.now) (link_binding link.now) section).name }
{
    if (section as usize) < link.tables.section_count() {
        return input_section(link.tables, link.binding, section).name;
    }
    past_name(link, section)
}

/// The name of a number past the last section, which counts as an index of the first file.
fn past_name<'a>(link: &LaidLink<'_, 'a>, section: SecNo) -> &'a [u8]
    requires past { section_total (link_files link.now) ≤ section }
    ensures { result.now ≡ (input_at (link_files link.now) (link_binding link.now) section).name }
{
    if 0 < link.tables.file_count() {
        return input_in(link.tables, link.binding, 0, section).name;
    }
    if has_room(link.binding.commons(0), section) {
        return b"COMMON";
    }
    b""
}

/// Whether the room of a COMMON symbol has a section number.
fn is_at(common: &BoundCommon, section: SecNo) -> bool
    ensures { result ≡ (common.now.section == section) }
{
    common.section == section
}

/// Whether a COMMON symbol's room has a section number.
fn has_room(commons: &[BoundCommon], section: SecNo) -> bool
    ensures { result ≡ list_any (λ (c : _). c.section == section) commons.now }
{
    commons.iter().any(|common| is_at(common, section))
}
