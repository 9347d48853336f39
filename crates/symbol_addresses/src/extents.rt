//! Where the output sections of each name start and end, found once for all names, so that no symbol's name is searched for among them.

ghost use Rattle.std.specs.Prelude.{◌≡◌, OnOk, IfOk, Some, if◌then◌else◌, map, ℕ, List};
ghost use Rattle.std.specs.Option.{option_map_or};
ghost use Rattle.std.specs.Str.{bytes_eq};
ghost use Rattle.lk_base.specs.declared.abi.TheConstants.{IMAGE_BASE};
ghost use Rattle.link_sections.specs.LaidOut.{place_view};
ghost use Rattle.symbol_addresses.specs.Noted.{AreExtents, extents_of, grown, noted};

use crate::places::Extent;
use link_sections::{Layout, OutputPlace};
use lk_base::abi::IMAGE_BASE;
use std::alloc::{AllocError, Global};
use std::collections::HashMap;

/// The extents of the output sections by their names.
#[derive(Drop)]
pub struct Extents<'a> {
    known: HashMap<&'a [u8], Extent>,
}

impl<'a> Extents<'a> {
    /// The extents of the output sections of a layout.
    pub fn of(alloc: Global, layout: &Layout<'a>) -> Result<Extents<'a>, AllocError>
        ensures { IfOk result (λ extents. AreExtents (map place_view layout.now.places.items) (extents_of extents)) }
    {
        let mut known = HashMap::new(alloc);
        for place in layout.places.iter() {
            note(&mut known, place)?;
        }
        Ok(Extents { known })
    }

    /// The extent of a name; both ends are the start of the image, if there is no output section of this name.
    #[tactic(auto, unfolding(crate::specs::Noted::noted))]
    pub fn get(&self, name: &[u8]) -> Extent
        ensures start { result.start ≡ option_map_or (λ (e : _). e.start) (extents_of self.now name.now) IMAGE_BASE }
        ensures end { result.end ≡ option_map_or (λ (e : _). e.end) (extents_of self.now name.now) IMAGE_BASE }
    {
        match self.known.get(name) {
            Some(extent) => *extent,
            None => Extent {
                start: IMAGE_BASE,
                end: IMAGE_BASE,
            },
        }
    }
}

/// Notes an output section, which follows those that are noted.
#[tactic(auto, unfolding(crate::specs::Noted::noted))]
fn note<'a>(
    known: &mut HashMap<&'a [u8], Extent>,
    place: &OutputPlace<'a>,
) -> Result<(), AllocError>
    ensures { OnOk result ((name : List ℕ) → noted known.new name ≡ (if bytes_eq place.now.name.now name then Some (grown (noted known.old place.now.name.now) (place_view place.now)) else noted known.old name)) }
{
    let extent = Extent {
        start: first_start(known, place),
        end: place.end,
    };
    known.insert(place.name, extent)?;
    Ok(())
}

/// The start of the first output section of this one's name.
#[tactic(auto, unfolding(crate::specs::Noted::noted))]
fn first_start(known: &HashMap<&[u8], Extent>, place: &OutputPlace) -> u64
    ensures { result ≡ option_map_or (λ (e : _). e.start) (noted known.now place.now.name.now) place.now.start }
{
    match known.get(place.name) {
        Some(extent) => extent.start,
        None => place.start,
    }
}
