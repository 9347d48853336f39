//! That the unwind records of a link stand in what is written of them.

ghost use Rattle.std.specs.Prelude.{◌≡◌};
ghost use Rattle.lk_tables.specs.FramePlans.{plan_view};
ghost use Rattle.lk_tables.specs.Frames.{AreListsWithin, lists_of};
ghost use Rattle.link_sections.specs.Views.{binding_in, by_view, files_in, laid_in, leaders_in};
ghost use Rattle.eh_frame.specs.Bytes.{frame_bytes};
ghost use Rattle.eh_frame.specs.FrameLaws.{ArePlain, HasUnwindRecords};
ghost use Rattle.eh_frame.specs.Header.{header_bytes};
ghost use Rattle.eh_frame.specs.Plan.{plan_of};

use link_sections::View;
use lk_tables::{FrameBytes, FramePlan};

/// That what `write` gives has each FDE of a section whose own bytes are written, once and no other: it stands whole in `.eh_frame`, its CIE Pointer
/// leads to a CIE that has the same bytes as its own and stands for the same, and `.eh_frame_hdr` has one entry for it, in order of the
/// addresses of the functions. What is asked of the relocations of records is seen to where they are read. Nothing is done while a program
/// runs: all that is said here is in the clause.
pub fn prove_records_stand(view: &View, plan: &FramePlan, bytes: &FrameBytes)
    requires lists { AreListsWithin (files_in view.now) (lists_of plan.now.frames.now) }
    requires plain { ArePlain (lists_of plan.now.frames.now) }
    requires plan { plan_view plan.now ≡ plan_of (files_in view.now) (binding_in view.now) (laid_in view.now).merging.merged (lists_of plan.now.frames.now) (leaders_in view.now) }
    requires frame { bytes.now.frame.items ≡ by_view frame_bytes view.now (lists_of plan.now.frames.now) (plan_view plan.now) (laid_in view.now).bounds.frames }
    requires header { bytes.now.header.items ≡ by_view header_bytes view.now (lists_of plan.now.frames.now) (plan_view plan.now) (laid_in view.now).bounds.frame_header (laid_in view.now).bounds.frames }
    ensures { by_view HasUnwindRecords view.now (lists_of plan.now.frames.now) (plan_view plan.now) bytes.now.frame.items bytes.now.header.items }
{
    view.tables.prove_few();
}
