//! What is written of the unwind records of a link.

ghost use Rattle.std.specs.Prelude.{◌≡◌, ◌≤◌, IfOk};
ghost use Rattle.elf_out.specs.Standing.{FitFrames};
ghost use Rattle.elf_out.specs.TablesView.{frame_contents};
ghost use Rattle.layout.specs.Layout.{frame_sizes};
ghost use Rattle.layout.specs.Spots.{HasFrames};
ghost use Rattle.link_sections.specs.Views.{binding_in, by_view, files_in, laid_in, leaders_in};
ghost use Rattle.lk_tables.specs.FramePlans.{plan_view};
ghost use Rattle.lk_tables.specs.Frames.{AreListsWithin, all_lists, lists_of};
ghost use Rattle.eh_frame.specs.Bytes.{frame_defects};
ghost use Rattle.eh_frame.specs.FrameLaws.{ArePlain};
ghost use Rattle.eh_frame.specs.Plan.{plan_of};
ghost use Rattle.lk_base.specs.Firsts.{StopsAt};
ghost use Rattle.output_sections.specs.Items.{AreLeaders};
ghost use Rattle.reloc_apply.specs.Relocated.{relocation_defects};
ghost use Rattle.link_driver.specs.Unwound.{Unwinds};
ghost use Rattle.link_driver.specs.Values as spec;

use eh_frame::{plan, prove_records_stand, write};
use link_sections::View;
use lk_base::{Defect, LinkStop};
use lk_tables::{FrameBytes, FramePlan};
use reloc_apply::check_relocations;
use std::alloc::Global;
use std::thread::Threads;
use work_split::Gate;

/// What `.eh_frame` and `.eh_frame_hdr` hold. Where a value of an unwind record does not fit, the values of all relocations are tested too, since
/// the first defect in order of sections is reported. Else the only error is out of memory.
pub fn write_frames<R: Threads + Sync, G: Gate>(
    rt: &R,
    alloc: Global,
    view: &View,
    plan: &FramePlan,
    workers: u32,
    gate: &G,
) -> Result<FrameBytes, LinkStop>
    requires some { 1 ≤ workers }
    requires most { workers ≤ 64 }
    requires lead { AreLeaders (files_in view.now) (binding_in view.now) (leaders_in view.now) }
    requires lists { lists_of plan.now.frames.now ≡ all_lists (files_in view.now) }
    requires within { AreListsWithin (files_in view.now) (all_lists (files_in view.now)) }
    requires plain { ArePlain (all_lists (files_in view.now)) }
    requires plan { plan_view plan.now ≡ plan_of (files_in view.now) (binding_in view.now) (laid_in view.now).merging.merged (all_lists (files_in view.now)) (leaders_in view.now) }
    requires framed { HasFrames (frame_sizes plan.now) view.now.layout.now.bounds }
    ensures goes { spec.Leaves result (by_view spec.value_defects view.now (plan_view plan.now)) (by_view relocation_defects view.now) }
    ensures contents { IfOk result (λ frames. frame_contents frames ≡ by_view spec.contents_with view.now (plan_view plan.now)) }
    ensures fit { IfOk result (λ frames. FitFrames view.now.layout.now.bounds (frame_contents frames)) }
    ensures records { IfOk result (λ frames. by_view Unwinds view.now (plan_view plan.now) (frame_contents frames)) }
{
    match write(rt, alloc, view, plan, workers, gate) {
        Ok(frames) => {
            prove_records_stand(view, plan, &frames);
            Ok(frames)
        }
        Err(stop) => Err(first_stop(rt, alloc, view, plan, stop, workers, gate)),
    }
}

/// The first of this stop, which a value of an unwind record made, and one that values of relocations make.
fn first_stop<R: Threads + Sync, G: Gate>(
    rt: &R,
    alloc: Global,
    view: &View,
    plan: &FramePlan,
    stop: LinkStop,
    workers: u32,
    gate: &G,
) -> LinkStop
    requires some { 1 ≤ workers }
    requires most { workers ≤ 64 }
    requires lead { AreLeaders (files_in view.now) (binding_in view.now) (leaders_in view.now) }
    requires lists { lists_of plan.now.frames.now ≡ all_lists (files_in view.now) }
    requires plan { plan_view plan.now ≡ plan_of (files_in view.now) (binding_in view.now) (laid_in view.now).merging.merged (all_lists (files_in view.now)) (leaders_in view.now) }
    requires stop { StopsAt stop (by_view frame_defects view.now (lists_of plan.now.frames.now) (plan_view plan.now) (laid_in view.now).bounds.frames) }
    ensures { StopsAt result (by_view spec.value_defects view.now (plan_view plan.now)) }
{
    match check_relocations(rt, alloc, view, workers, gate) {
        Ok(()) => stop,
        Err(found) => earlier_stop(found, stop),
    }
}

/// The first of two stops by file and section; out of memory comes first.
fn earlier_stop(one: LinkStop, other: LinkStop) -> LinkStop
    ensures { result ≡ spec.earlier_stop one other }
{
    match one {
        LinkStop::Memory => LinkStop::Memory,
        LinkStop::Defect(first) => match other {
            LinkStop::Memory => LinkStop::Memory,
            LinkStop::Defect(next) => LinkStop::Defect(earlier(first, next)),
        },
    }
}

/// The first of two defects by file and section.
fn earlier(one: Defect, other: Defect) -> Defect
    ensures { result ≡ spec.earlier one other }
{
    let before = other.file < one.file || (other.file == one.file && other.section < one.section);
    if before { other } else { one }
}
