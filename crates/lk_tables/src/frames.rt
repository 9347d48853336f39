//! The unwind records of a link, by section number.

ghost use Rattle.std.specs.Prelude.{◌≡◌, [], option_map, slice_index_or};
ghost use Rattle.lk_tables.specs.Frames as spec;
ghost use Rattle.lk_tables.specs.RecordViews.{record_view};

use crate::records::{FrameNo, Record};
use lk_base::SecNo;

/// The records of all sections `.eh_frame` of a link, and which function each FDE is for.
#[derive(Debug, Drop)]
pub struct Frames {
    /// Of each such section of a file that takes part, in order of section number, its number and its records.
    pub records: Vec<(SecNo, Vec<Record>)>,
    /// By section number the FDEs of its functions, in order. The FDEs of an `.eh_frame` that was discarded are in no list, and so is one
    /// without a relocation that has bytes, and one whose PC Begin stands in no section.
    pub of: Vec<Vec<FrameNo>>,
}

impl Frames {
    /// A record, by its numbers; none past the lists. Takes no memory.
    #[tactic(auto, unfolding(crate::specs::Frames::record_at))]
    pub fn record(&self, number: FrameNo) -> Option<&Record>
        requires { spec.AreInOrder (spec.lists_of self.now) }
        ensures { option_map (λ (r : _). record_view r.now) result ≡ spec.record_at (spec.lists_of self.now) number }
    {
        let place = self.records.partition_point(|list| list.0 < number.section);
        let Some(list) = self.records.get(place) else {
            return None;
        };
        if list.0 != number.section {
            return None;
        }
        list.1.get(number.at as usize)
    }

    /// The FDEs of the functions of a section, by its number, in order.
    pub fn of_section(&self, section: usize) -> &[FrameNo]
        ensures { result.now ≡ slice_index_or (spec.frames_by_section self.now) section [] }
    {
        match self.of.get(section) {
            Some(list) => list.as_slice(),
            None => &[],
        }
    }
}

/// Which records are written, in order.
#[derive(Debug, Drop)]
pub struct FramePlan<'t> {
    pub frames: &'t Frames,
    /// The CIEs, which come first, by their first use: of those that are equal the first.
    pub cies: Vec<FrameNo>,
    /// The FDEs of functions that are written, in order of file, section and offset.
    pub fdes: Vec<FrameNo>,
    /// Of each of these the number of its CIE among those that are written.
    pub uses: Vec<usize>,
    /// Bytes of `.eh_frame`, 0 if there is no FDE.
    pub frame_len: u64,
    /// Bytes of `.eh_frame_hdr`, 0 if there is no FDE.
    pub header_len: u64,
}

/// What `.eh_frame` and `.eh_frame_hdr` hold.
#[derive(Debug, Drop)]
pub struct FrameBytes {
    pub frame: Vec<u8>,
    pub header: Vec<u8>,
}
