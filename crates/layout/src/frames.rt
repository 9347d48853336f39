//! Where `.eh_frame_hdr` and `.eh_frame` stand: last among what is only read (LSB Core, "Exception Frames").

ghost use Rattle.std.specs.Prelude.{◌≡◌, ◌+◌, ◌<◌, ◌≤◌, ◌++◌, ◌^◌, codes, map, OnOk};
ghost use Rattle.link_sections.specs.LaidOut.{output_view, place_view};
ghost use Rattle.layout.specs.Layout as spec;

use link_sections::{OutputPlace, OutputSection};
use lk_base::abi::{IMAGE_BASE, SHF_ALLOC, SHT_PROGBITS};
use lk_base::up;
use lk_tables::{Class, FramePlan};
use std::alloc::AllocError;

/// Where the two stand. All are addresses; without an FDE there is nothing, at `IMAGE_BASE`.
#[derive(Clone, Copy, Debug, PartialEq, Eq)]
pub struct FrameBounds {
    /// Whether an FDE is written, so that there are the two.
    pub has_frames: bool,
    /// The start of `.eh_frame_hdr`.
    pub header: u64,
    /// Its end.
    pub header_end: u64,
    /// The start of `.eh_frame`.
    pub frames: u64,
    /// Its end.
    pub frames_end: u64,
    /// The end of what is only read.
    pub r_end: u64,
}

/// Whether an FDE is written.
#[tactic(auto, unfolding(crate::specs::Layout::has_frames))]
pub fn has_frames(plan: &FramePlan) -> bool
    ensures { result ≡ spec.has_frames (spec.frame_sizes plan.now) }
{
    0 < plan.header_len
}

/// Where they stand after everything else that is only read.
#[tactic(auto, unfolding(crate::specs::Layout::frame_bounds))]
pub fn frame_bounds(plan: &FramePlan, rows_end: u64) -> FrameBounds
    requires room { rows_end + 2 ^ 61 < 2 ^ 64 }
    requires small { spec.AreSmall (spec.frame_sizes plan.now) }
    ensures value { result ≡ spec.frame_bounds (spec.frame_sizes plan.now) rows_end }
    ensures header { result.header ≤ result.header_end }
    ensures frames { result.frames ≤ result.frames_end }
    ensures most { result.r_end ≤ rows_end + 2 ^ 60 + 2 ^ 59 + 2 ^ 10 }
{
    if !has_frames(plan) {
        return FrameBounds {
            has_frames: false,
            header: IMAGE_BASE,
            header_end: IMAGE_BASE,
            frames: IMAGE_BASE,
            frames_end: IMAGE_BASE,
            r_end: rows_end,
        };
    }
    let header = up(rows_end, 4);
    let header_end = header + plan.header_len;
    let frames = up(header_end, 8);
    let frames_end = frames + plan.frame_len;
    FrameBounds {
        has_frames: true,
        header,
        header_end,
        frames,
        frames_end,
        r_end: frames_end,
    }
}

/// One of them as an output section: it has no members.
fn frame_section<'a>(name: &'a [u8], start: u64, end: u64, align: u64) -> OutputSection<'a>
    requires { start ≤ end }
    ensures { output_view result ≡ spec.frame_section name.now start end align }
{
    OutputSection {
        name,
        class: Class::R,
        sh_type: SHT_PROGBITS,
        flags: SHF_ALLOC,
        address: start,
        size: end - start,
        align,
        count: 0,
    }
}

/// Where it is.
fn frame_place<'a>(name: &'a [u8], start: u64, end: u64) -> OutputPlace<'a>
    ensures { place_view result ≡ spec.frame_place name.now start end }
{
    OutputPlace {
        name,
        class: Class::R,
        start,
        end,
    }
}

/// Adds them to the output sections that are not empty, and to where all are, if there is an FDE.
pub fn push_frames<'a>(
    frames: &FrameBounds,
    outputs: &mut Vec<OutputSection<'a>>,
    extents: &mut Vec<OutputPlace<'a>>,
) -> Result<(), AllocError>
    requires header { frames.now.header ≤ frames.now.header_end }
    requires frames { frames.now.frames ≤ frames.now.frames_end }
    ensures outputs { OnOk result (map output_view outputs.new.items ≡ map output_view outputs.old.items ++ spec.frame_sections frames.now) }
    ensures extents { OnOk result (map place_view extents.new.items ≡ map place_view extents.old.items ++ spec.frame_places frames.now) }
{
    if !frames.has_frames {
        return Ok(());
    }
    let header = frame_section(b".eh_frame_hdr", frames.header, frames.header_end, 4);
    let frame = frame_section(b".eh_frame", frames.frames, frames.frames_end, 8);
    outputs.push(header)?;
    outputs.push(frame)?;
    extents.push(frame_place(b".eh_frame_hdr", frames.header, frames.header_end))?;
    extents.push(frame_place(b".eh_frame", frames.frames, frames.frames_end))?;
    Ok(())
}
