//! The unwind records and their table, in a block of the file (LSB Core, "Exception Frames").

ghost use Rattle.std.specs.Prelude.{◌≡◌, ◌+◌, ◌-◌, ◌<◌, ◌^◌, length};
ghost use Rattle.link_sections.specs.Views.{laid_in};
ghost use Rattle.lk_base.specs.declared.abi.TheConstants.{IMAGE_BASE};
ghost use Rattle.elf_out.specs.Executable as spec;
ghost use Rattle.elf_out.specs.TablesView.{frame_contents};
ghost use Rattle.reloc_apply.specs.Image.{ShowsFrom};

use crate::header_bytes::offset_of;
use link_sections::View;
use lk_tables::FrameBytes;
use reloc_apply::{Piece, fill_piece};

/// The file offset of `.eh_frame_hdr`.
fn header_offset(view: &View) -> u64
    ensures value { result ≡ (laid_in view.now).bounds.frame_header - IMAGE_BASE }
    ensures low { result < 2 ^ 63 }
{
    offset_of(view.layout.bounds.frame_header)
}

/// The file offset of `.eh_frame`.
fn frames_offset(view: &View) -> u64
    ensures value { result ≡ (laid_in view.now).bounds.frames - IMAGE_BASE }
    ensures low { result < 2 ^ 63 }
{
    offset_of(view.layout.bounds.frames)
}

/// Copies both into a block that starts at a file offset.
pub fn lay_frames(block: &mut [u8], from: u64, view: &View, frames: &FrameBytes)
    requires { from + length block.old < 2 ^ 63 }
    ensures { ShowsFrom from block.old block.new (spec.frame_pieces (laid_in view.now) (frame_contents frames.now)) }
{
    let header = Piece {
        at: header_offset(view),
        bytes: frames.header.as_slice(),
    };
    let frame = Piece {
        at: frames_offset(view),
        bytes: frames.frame.as_slice(),
    };
    fill_piece(block, from, &header);
    fill_piece(block, from, &frame);
}
