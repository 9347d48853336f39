//! Records by their numbers, each looked for near the one before it.

ghost use Rattle.std.specs.Prelude.{◌≡◌, true, Some, is_some, IfSome};
ghost use Rattle.lk_tables.specs.Frames.{AreInOrder, lists_of, record_at};
ghost use Rattle.lk_tables.specs.RecordViews.{record_view};
ghost use Rattle.eh_frame.specs.Plan as spec;

use lk_base::SecNo;
use lk_tables::{FrameNo, Frames, Record};

/// The place of the list that has the records of a section, looked for at a place and after it first.
pub fn list_near(frames: &Frames, section: SecNo, list: usize) -> usize {
    if is_list(frames, section, list) {
        return list;
    }
    let next = list.saturating_add(1);
    if is_list(frames, section, next) {
        return next;
    }
    frames.records.partition_point(|own| own.0 < section)
}

/// Whether the list at a place has the records of a section.
fn is_list(frames: &Frames, section: SecNo, list: usize) -> bool {
    match frames.records.get(list) {
        Some(own) => own.0 == section,
        None => false,
    }
}

/// A record that is there, by its numbers: one of the list at a place, if that is its section's.
pub fn record_near(frames: &Frames, number: FrameNo, list: usize) -> &Record
    requires order { AreInOrder (lists_of frames.now) }
    requires there { is_some (record_at (lists_of frames.now) number) ≡ true }
    ensures { record_view result.now ≡ spec.record_by (lists_of frames.now) number }
{
    if let Some(record) = record_of_list(frames, number, list) {
        return record;
    }
    record_of(frames, number)
}

/// The record of a number in the list at a place, if that list is its section's.
#[tactic(auto, unfolding(lk_tables::specs::Frames::record_at))]
fn record_of_list(frames: &Frames, number: FrameNo, list: usize) -> Option<&Record>
    requires { AreInOrder (lists_of frames.now) }
    ensures { IfSome result (λ (r : _). record_at (lists_of frames.now) number ≡ Some (record_view r.now)) }
{
    let Some(own) = frames.records.get(list) else {
        return None;
    };
    if own.0 != number.section {
        return None;
    }
    let Some(record) = own.1.get(number.at as usize) else {
        return None;
    };
    Some(record)
}

/// A record that is there, by its numbers.
fn record_of(frames: &Frames, number: FrameNo) -> &Record
    requires order { AreInOrder (lists_of frames.now) }
    requires there { is_some (record_at (lists_of frames.now) number) ≡ true }
    ensures { record_view result.now ≡ spec.record_by (lists_of frames.now) number }
{
    match frames.record(number) {
        Some(record) => record,
        None => unreachable!(),
    }
}
