//! What stands whole in the executable.

ghost use Rattle.link_sections.specs.Views.{binding_in, by_view, files_in, laid_in, leaders_in};
ghost use Rattle.elf_out.specs.Executable.{executable};
ghost use Rattle.elf_out.specs.Standing.{FitFrames, FramesStand, HasHeaderRoom, HeadersStand, PiecesStand, SectionsStand};
ghost use Rattle.elf_out.specs.TablesView.{frame_contents, tables_in};

use link_sections::View;
use lk_tables::FrameBytes;

/// That each piece of which the executable is made stands whole in it, and so do the bytes of each section; the unwind records and the headers do
/// where the records have the bytes for which there is room. Nothing is done while a program runs: all that is said here is in the clauses.
#[tactic(auto, unfolding(crate::specs::Executable::executable))]
pub fn prove_file_stands(view: &View, frames: &FrameBytes)
    ensures sections { by_view SectionsStand view.now (executable (files_in view.now) (binding_in view.now) view.now.kept.now view.now.strip (leaders_in view.now) (laid_in view.now) (frame_contents frames.now)) }
    ensures pieces { by_view PiecesStand view.now (tables_in view.now) (executable (files_in view.now) (binding_in view.now) view.now.kept.now view.now.strip (leaders_in view.now) (laid_in view.now) (frame_contents frames.now)) }
    ensures frames { FitFrames view.now.layout.now.bounds (frame_contents frames.now) → FramesStand (laid_in view.now) (frame_contents frames.now) (executable (files_in view.now) (binding_in view.now) view.now.kept.now view.now.strip (leaders_in view.now) (laid_in view.now) (frame_contents frames.now)) }
    ensures headers { HasHeaderRoom view.now.layout.now.bounds → FitFrames view.now.layout.now.bounds (frame_contents frames.now) → by_view HeadersStand view.now (tables_in view.now) (executable (files_in view.now) (binding_in view.now) view.now.kept.now view.now.strip (leaders_in view.now) (laid_in view.now) (frame_contents frames.now)) }
{}
