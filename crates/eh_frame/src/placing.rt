//! Where the records that are written stand in `.eh_frame`.

ghost use Rattle.std.specs.Prelude.{◌≡◌, ◌+◌, ◌^◌, ◌<◌, ◌≤◌, ◌++◌, true, is_some, IfOk, OnOk};
ghost use Rattle.std.specs.List.{All, sum_by};
ghost use Rattle.lk_tables.specs.FramePlans.{plan_view};
ghost use Rattle.lk_tables.specs.Frames.{AreInOrder, lists_of, record_at};
ghost use Rattle.eh_frame.specs.Bytes as spec;
ghost use Rattle.eh_frame.specs.Plan.{size_of};

use crate::lookups::{list_near, record_near};
use lk_tables::{FrameNo, FramePlan, Frames};
use std::alloc::{AllocError, Global};

/// A record that is written.
#[derive(Clone, Copy, Debug, PartialEq, Eq)]
pub struct Placed {
    pub number: FrameNo,
    /// Its offset in `.eh_frame`, in bytes.
    pub at: u64,
}

/// Where each record stands that is written: the CIEs and then the FDEs, one after the other. All together have at most so many bytes.
#[tactic(auto, unfolding(crate::specs::Bytes::placed_cies, crate::specs::Bytes::placed_fdes))]
pub fn place(alloc: Global, plan: &FramePlan, most: u64) -> Result<Vec<Placed>, AllocError>
    requires order { AreInOrder (lists_of plan.now.frames.now) }
    requires cies { All (λ n. is_some (record_at (lists_of plan.now.frames.now) n) ≡ true) plan.now.cies.items }
    requires fdes { All (λ n. is_some (record_at (lists_of plan.now.frames.now) n) ≡ true) plan.now.fdes.items }
    requires room { sum_by (size_of (lists_of plan.now.frames.now)) plan.now.cies.items + sum_by (size_of (lists_of plan.now.frames.now)) plan.now.fdes.items ≤ most }
    ensures { IfOk result (λ placed. placed.items ≡ spec.all_placed (lists_of plan.now.frames.now) (plan_view plan.now)) }
{
    let mut placed = Vec::with_capacity(alloc, plan.cies.len() + plan.fdes.len())?;
    let end = push_placed(&mut placed, plan.frames, plan.cies.as_slice(), 0, most)?;
    push_placed(&mut placed, plan.frames, plan.fdes.as_slice(), end, most)?;
    Ok(placed)
}

/// Adds some records one after the other from an offset on, and gives the offset after them.
fn push_placed(
    placed: &mut Vec<Placed>,
    frames: &Frames,
    numbers: &[FrameNo],
    from: u64,
    most: u64,
) -> Result<u64, AllocError>
    requires order { AreInOrder (lists_of frames.now) }
    requires there { All (λ n. is_some (record_at (lists_of frames.now) n) ≡ true) numbers.now }
    requires room { from + sum_by (size_of (lists_of frames.now)) numbers.now ≤ most }
    ensures list { OnOk result (placed.new.items ≡ placed.old.items ++ spec.placed_from (lists_of frames.now) from numbers.now) }
    ensures end { IfOk result (λ end. end ≡ from + sum_by (size_of (lists_of frames.now)) numbers.now) }
{
    let mut at = from;
    let mut list = 0;
    for number in numbers {
        list = list_near(frames, number.section, list);
        placed.push(Placed {
            number: *number,
            at,
        })?;
        at += size_near(frames, *number, list, most);
    }
    Ok(at)
}

/// Bytes of a record, which are at most so many.
fn size_near(frames: &Frames, number: FrameNo, list: usize, most: u64) -> u64
    requires order { AreInOrder (lists_of frames.now) }
    requires there { is_some (record_at (lists_of frames.now) number) ≡ true }
    requires room { size_of (lists_of frames.now) number ≤ most }
    ensures { result ≡ size_of (lists_of frames.now) number }
{
    4 + record_near(frames, number, list).len
}
