//! The output sections of a name.

ghost use Rattle.std.specs.Prelude.{◌≡◌, ◌&&◌, Some, find, if◌then◌else◌, option_map, reverse};
ghost use Rattle.std.specs.Str.{bytes_eq};
ghost use Rattle.link_sections.specs.Addresses as spec;
ghost use Rattle.link_sections.specs.LaidOut.{place_view};
ghost use Rattle.symbol_addresses.specs.Extents.{array_extent, extent_of};
ghost use Rattle.link_sections.specs.Links.{link_laid};

use link_sections::{LaidLink, OutputPlace};
use lk_base::abi::IMAGE_BASE;
use lk_tables::Class;

/// Where the output sections of a name start, and where they end; the start of the image, if there are none.
#[derive(Clone, Copy, Debug, PartialEq, Eq)]
pub struct Extent {
    /// The first address of the first.
    pub start: u64,
    /// The end of the last.
    pub end: u64,
}

/// The extent of the output sections of a name.
#[tactic(auto, unfolding(crate::specs::Extents::extent_of))]
pub fn extent_in(link: &LaidLink, name: &[u8]) -> Extent
    ensures { result ≡ extent_of (link_laid link.now) name.now }
{
    Extent {
        start: start_or(IMAGE_BASE, first_place(link, name)),
        end: end_or(IMAGE_BASE, last_place(link, name)),
    }
}

/// The extent of a list of functions to call: of the output section that is written, else of the first of its name.
#[tactic(auto, unfolding(crate::specs::Extents::array_extent))]
pub fn array_in(link: &LaidLink, name: &[u8]) -> Extent
    ensures { result ≡ array_extent (link_laid link.now) name.now }
{
    let place = array_place(link, name);
    Extent {
        start: start_or(IMAGE_BASE, place),
        end: end_or(IMAGE_BASE, place),
    }
}

/// The start of an output section that may be there, and else an address.
pub fn start_or(without: u64, place: Option<OutputPlace>) -> u64
    ensures { result ≡ spec.start_or without (option_map place_view place.entry) }
{
    match place {
        Some(place) => place.start,
        None => without,
    }
}

/// The end of an output section that may be there, and else an address.
fn end_or(without: u64, place: Option<OutputPlace>) -> u64
    ensures { result ≡ spec.end_or without (option_map place_view place.entry) }
{
    match place {
        Some(place) => place.end,
        None => without,
    }
}

/// The first output section of a name.
#[tactic(auto, unfolding(link_sections::specs::Addresses::first_place, link_sections::specs::LaidOut::layout_view, link_sections::specs::LaidOut::with_contents))]
fn first_place<'a>(link: &LaidLink<'_, 'a>, name: &[u8]) -> Option<OutputPlace<'a>>
    ensures { option_map place_view result ≡ spec.first_place (link_laid link.now) name.now }
{
    first_in(link.layout.places.as_slice(), name)
}

/// The first of a name in a list.
fn first_in<'a>(places: &[OutputPlace<'a>], name: &[u8]) -> Option<OutputPlace<'a>>
    ensures { result ≡ find (λ (p : _). bytes_eq p.name.now name.now) places.now }
{
    for place in places {
        if has_name(place, name) {
            return Some(*place);
        }
    }
    None
}

/// The last output section of a name.
#[tactic(auto, unfolding(link_sections::specs::Addresses::last_place, link_sections::specs::LaidOut::layout_view, link_sections::specs::LaidOut::with_contents))]
fn last_place<'a>(link: &LaidLink<'_, 'a>, name: &[u8]) -> Option<OutputPlace<'a>>
    ensures { option_map place_view result ≡ spec.last_place (link_laid link.now) name.now }
{
    last_in(link.layout.places.as_slice(), name)
}

/// The last of a name in a list.
fn last_in<'a>(places: &[OutputPlace<'a>], name: &[u8]) -> Option<OutputPlace<'a>>
    ensures { result ≡ find (λ (p : _). bytes_eq p.name.now name.now) (reverse places.now) }
{
    let mut last = None;
    for place in places {
        last = later(last, place, name);
    }
    last
}

/// The later of two, if it has a name.
fn later<'a>(
    last: Option<OutputPlace<'a>>,
    place: &OutputPlace<'a>,
    name: &[u8],
) -> Option<OutputPlace<'a>>
    ensures { result ≡ (if bytes_eq place.now.name.now name.now then Some place.now else last.entry) }
{
    if has_name(place, name) {
        Some(*place)
    } else {
        last
    }
}

/// The first output section of a name that is written and has bytes in the file.
#[tactic(auto, unfolding(link_sections::specs::Addresses::rw_place, link_sections::specs::LaidOut::layout_view, link_sections::specs::LaidOut::with_contents))]
pub fn rw_place<'a>(link: &LaidLink<'_, 'a>, name: &[u8]) -> Option<OutputPlace<'a>>
    ensures { option_map place_view result ≡ spec.rw_place (link_laid link.now) name.now }
{
    first_rw(link.layout.places.as_slice(), name)
}

/// The first of a name in a list that is written and has bytes in the file.
fn first_rw<'a>(places: &[OutputPlace<'a>], name: &[u8]) -> Option<OutputPlace<'a>>
    ensures { result ≡ find (λ (p : _). spec.is_rw_bits p.class && bytes_eq p.name.now name.now) places.now }
{
    for place in places {
        if is_rw_bits(place.class) && has_name(place, name) {
            return Some(*place);
        }
    }
    None
}

/// Whether an output section has a name.
fn has_name(place: &OutputPlace, name: &[u8]) -> bool
    ensures { result ≡ bytes_eq place.now.name.now name.now }
{
    place.name == name
}

/// Whether a class is written and has bytes in the file.
fn is_rw_bits(class: Class) -> bool
    ensures { result ≡ spec.is_rw_bits class }
{
    matches!(class, Class::RwBits)
}

/// The one that is written, else the first.
#[tactic(auto, unfolding(link_sections::specs::Addresses::array_place))]
fn array_place<'a>(link: &LaidLink<'_, 'a>, name: &[u8]) -> Option<OutputPlace<'a>>
    ensures { option_map place_view result ≡ spec.array_place (link_laid link.now) name.now }
{
    match rw_place(link, name) {
        Some(place) => Some(place),
        None => first_place(link, name),
    }
}
