//! One block of the file, made by itself, and some blocks side by side.

ghost use Rattle.std.specs.Prelude.{◌≡◌, ◌+◌, ◌*◌, ◌≤◌, ◌<◌, ◌^◌, [], length, take, drop, replicate, IsOk, OnOk};
ghost use Rattle.lk_base.specs.Firsts.{Passes};
ghost use Rattle.link_sections.specs.Views.{binding_in, by_view, files_in, laid_in, leaders_in};
ghost use Rattle.elf_out.specs.Executable as spec;
ghost use Rattle.elf_out.specs.Prepared.{IsFilledFrom, IsPartFilled, IsPreparedFor};
ghost use Rattle.elf_out.specs.TablesView.{frame_contents, tables_in};
ghost use Rattle.reloc_apply.specs.Image.{ShowsFrom};
ghost use Rattle.reloc_apply.specs.Relocated.{relocation_defects, touching_defects};

use crate::frames::lay_frames;
use crate::prepared::{Prepared, lay_ends, lay_headers};
use link_sections::View;
use lk_base::Defect;
use lk_tables::FrameBytes;
use reloc_apply::{apply, write_block};
use std::thread;
use std::thread::Threads;
use work_split::Gate;

/// The bytes from one block's start to the next one's.
pub const BLOCK: u64 = 0x1_0000;

/// Makes each byte 0.
fn clear(out: &mut [u8])
    ensures { out.new ≡ replicate (length out.old) 0 }
{
    out.fill(0);
}

/// Writes the bytes of the executable from file offset `65536 * k` on, as many as `out` has, which end within the file; `frames` is what
/// `.eh_frame_hdr` and `.eh_frame` hold, and `prepared` is of this view.
/// A relocation that touches them and can't be done stops it, the first in order of section and offset; `out` may then hold any bytes. Where
/// all relocations can be done it is sure to write. Takes no memory.
#[tactic(auto, unfolding(crate::specs::Executable::executable, crate::specs::Executable::pieces_with, crate::specs::Executable::file_with))]
pub fn block(
    view: &View,
    frames: &FrameBytes,
    prepared: &Prepared,
    k: u64,
    out: &mut [u8],
) -> Result<(), Defect>
    requires prepared { IsPreparedFor view.now prepared.now }
    requires within { 65536 * k + length out.old ≤ spec.file_length (laid_in view.now) (tables_in view.now) }
    ensures written { OnOk result (out.new ≡ take (length out.old) (drop (65536 * k) (spec.executable (files_in view.now) (binding_in view.now) view.now.kept.now view.now.strip (leaders_in view.now) (laid_in view.now) (frame_contents frames.now)))) }
    ensures goes { Passes result (by_view touching_defects view.now (65536 * k) (length out.old)) }
    ensures sure { by_view relocation_defects view.now ≡ [] → IsOk result }
{
    prove_short(view, prepared);
    let from = BLOCK * k;
    clear(out);
    lay_headers(out, from, view, prepared);
    lay_frames(out, from, view, frames);
    match apply(out, from, view) {
        Ok(()) => {}
        Err(defect) => return Err(defect),
    }
    lay_ends(out, from, view, prepared);
    Ok(())
}

/// That 63 bits hold the length of a file. Nothing is done while a program runs.
fn prove_short(view: &View, prepared: &Prepared)
    requires { IsPreparedFor view.now prepared.now }
    ensures { spec.file_length (laid_in view.now) (tables_in view.now) < 2 ^ 63 }
{}

/// Writes the bytes of the executable from file offset `65536 * k` on over a window of blocks, as many as it has, which end within the file.
/// The blocks are written at the same time, each by a worker of its own. `frames` is what `.eh_frame_hdr` and `.eh_frame` hold, `prepared` is
/// of this view, and no relocation is tested. Takes no memory.
#[tactic(auto, unfolding(crate::specs::Executable::executable, crate::specs::Executable::file_with))]
pub fn fill_window<R: Threads + Sync, G: Gate>(
    rt: &R,
    window: &mut [u8],
    view: &View,
    frames: &FrameBytes,
    prepared: &Prepared,
    k: u64,
    gate: &G,
)
    requires prepared { IsPreparedFor view.now prepared.now }
    requires within { 65536 * k + length window.old ≤ spec.file_length (laid_in view.now) (tables_in view.now) }
    ensures { window.new ≡ take (length window.old) (drop (65536 * k) (spec.executable (files_in view.now) (binding_in view.now) view.now.kept.now view.now.strip (leaders_in view.now) (laid_in view.now) (frame_contents frames.now))) }
{
    prove_short(view, prepared);
    fill_blocks(rt, window, BLOCK * k, view, frames, prepared, gate);
}

/// Fills a window that starts at a file offset: each worker one block of it. One block starts no thread.
fn fill_blocks<R: Threads + Sync, G: Gate>(
    rt: &R,
    window: &mut [u8],
    from: u64,
    view: &View,
    frames: &FrameBytes,
    prepared: &Prepared,
    gate: &G,
)
    requires room { from + length window.old < 2 ^ 63 }
    requires prepared { IsPreparedFor view.now prepared.now }
    ensures { IsFilledFrom from window.old window.new (by_view spec.pieces_with view.now (frame_contents frames.now) (tables_in view.now)) }
{
    if window.len() <= BLOCK as usize {
        fill(window, from, view, frames, prepared);
        return;
    }
    thread::for_each_chunk_mut(
        rt,
        window,
        BLOCK as usize,
        &|start: usize, part: &mut [u8]|
            requires room { from + start + length part.now < 2 ^ 63 }
            requires prepared { IsPreparedFor view.now prepared.now }
            ensures { IsPartFilled from start part.entry.now part.exit.now (by_view spec.pieces_with view.entry.now (frame_contents frames.entry.now) (tables_in view.entry.now)) }
        { fill_part(part, from, start, view, frames, prepared, gate) },
    );
}

/// Fills one block of a window that starts at a file offset, between the two steps of its worker's gate.
fn fill_part<G: Gate>(
    part: &mut [u8],
    from: u64,
    start: usize,
    view: &View,
    frames: &FrameBytes,
    prepared: &Prepared,
    gate: &G,
)
    requires room { from + start + length part.old < 2 ^ 63 }
    requires prepared { IsPreparedFor view.now prepared.now }
    ensures { IsPartFilled from start part.old part.new (by_view spec.pieces_with view.now (frame_contents frames.now) (tables_in view.now)) }
{
    let worker = (start as u64 / BLOCK % 0x1_0000_0000) as u32;
    gate.at(worker, 0);
    fill(part, from + start as u64, view, frames, prepared);
    gate.at(worker, 1);
}

/// Fills a block that starts at a file offset: zeros, and everything laid over them.
fn fill(block: &mut [u8], from: u64, view: &View, frames: &FrameBytes, prepared: &Prepared)
    requires room { from + length block.old < 2 ^ 63 }
    requires prepared { IsPreparedFor view.now prepared.now }
    ensures { IsFilledFrom from block.old block.new (by_view spec.pieces_with view.now (frame_contents frames.now) (tables_in view.now)) }
{
    clear(block);
    lay(block, from, view, frames, prepared);
}

/// Lays over a block that starts at a file offset the headers, over them the unwind records, over these the sections with their relocations
/// done, and over all of these the symbol table, the names and the section headers.
#[tactic(auto, unfolding(crate::specs::Executable::pieces_with))]
fn lay(block: &mut [u8], from: u64, view: &View, frames: &FrameBytes, prepared: &Prepared)
    requires room { from + length block.old < 2 ^ 63 }
    requires prepared { IsPreparedFor view.now prepared.now }
    ensures { ShowsFrom from block.old block.new (by_view spec.pieces_with view.now (frame_contents frames.now) (tables_in view.now)) }
{
    lay_headers(block, from, view, prepared);
    lay_frames(block, from, view, frames);
    write_block(block, from, view);
    lay_ends(block, from, view, prepared);
}
