//! Calls that have to be larger since others got larger, one after the other, without a look at all calls for each. Each is raised by its
//! exact distance.

ghost use Rattle.std.specs.Prelude.{◌≡◌, ◌≤◌, ◌<◌, ◌^◌, length, All, OnOk, IfOk};
ghost use Rattle.relax.specs.Jumps as spec;
ghost use Rattle.relax.specs.Losses.{AreLosses, AreRising};

use crate::jumps::{Jump, Point};
use crate::losses::{Losses, double, losses_of, lost_to};
use crate::solving::{allows, bytes_of, lost_sums, size_at};
use crate::watching::{Watch, next_look, note, watch_of};
use std::alloc::{AllocError, Global};

/// Raises calls that do not allow their distances any more, as long as one follows from another.
pub fn settle(alloc: Global, jumps: &[Jump], sizes: &mut Vec<u8>) -> Result<(), AllocError>
    requires jumps { All (spec.IsJump (length jumps.now)) jumps.now }
    requires lawful { spec.AreLawful jumps.now sizes.old.items }
    requires below { spec.AreBelow jumps.now sizes.old.items }
    ensures lawful { OnOk result (spec.AreLawful jumps.now sizes.new.items) }
    ensures below { OnOk result (spec.AreBelow jumps.now sizes.new.items) }
    ensures lost { OnOk result (spec.all_lost sizes.new.items ≤ spec.all_lost sizes.old.items) }
{
    let before = lost_sums(alloc, sizes.as_slice())?;
    let spares = spares_of(alloc, jumps, sizes.as_slice(), before.as_slice())?;
    let mut losses = losses_of(alloc, sizes.as_slice(), before.as_slice())?;
    let mut watch = watch_of(alloc, jumps, spares.as_slice(), before.as_slice())?;
    for _look in 0..u64::MAX {
        let Some((k, call)) = next_look(&mut watch) else {
            return Ok(());
        };
        look(jumps, sizes, &mut losses, &mut watch, k, call)?;
    }
    Ok(())
}

/// By call, how many bytes may be added to its distance before its size does not allow it any more; 0 if it does not.
fn spares_of(
    alloc: Global,
    jumps: &[Jump],
    sizes: &[u8],
    before: &[u128],
) -> Result<Vec<u64>, AllocError>
    requires jumps { All (spec.IsJump (length jumps.now)) jumps.now }
    requires count { length sizes.now ≡ length jumps.now }
    requires before { before.now ≡ spec.lost_sums sizes.now }
{
    let mut spares = Vec::with_capacity(alloc, jumps.len())?;
    for k in 0..jumps.len() {
        let bytes = bytes_of(&jumps[k], sizes, before);
        spares.push(spare_of(sizes[k], &jumps[k], bytes))?;
    }
    Ok(spares)
}

/// How many bytes may be added to a distance before a size does not allow it any more, and 0 if it does not.
fn spare_of(size: u8, jump: &Jump, bytes: u128) -> u64 {
    if size >= 8 {
        return u64::MAX;
    }
    let most = most_bytes(size, jump) as u128;
    if bytes > most {
        return 0;
    }
    ((most - bytes) as u64).saturating_add(1)
}

/// How many bytes a size below eight allows.
fn most_bytes(size: u8, jump: &Jump) -> u64 {
    if size == 2 {
        return if jump.forwards { 2_046 } else { 2_048 };
    }
    if jump.forwards { 1_048_574 } else { 1_048_576 }
}

/// Raises a watched call, if it does not allow its distance, and notes it.
fn look(
    jumps: &[Jump],
    sizes: &mut Vec<u8>,
    losses: &mut Losses,
    watch: &mut Watch,
    k: usize,
    call: usize,
) -> Result<(), AllocError>
    requires jumps { All (spec.IsJump (length jumps.now)) jumps.now }
    requires rising { AreRising jumps.now sizes.old.items losses.old }
    ensures rising { AreRising jumps.now sizes.new.items losses.new }
    ensures lost { spec.all_lost sizes.new.items ≤ spec.all_lost sizes.old.items }
{
    let size = size_at(sizes.as_slice(), call);
    let spare = raise(jumps, sizes, losses, call);
    let gained = size_at(sizes.as_slice(), call).saturating_sub(size);
    note(watch, jumps, k, spare, gained as u64)
}

/// Raises a call, if it does not allow its distance; gives how many bytes may be added before it is looked at again.
fn raise(jumps: &[Jump], sizes: &mut Vec<u8>, losses: &mut Losses, call: usize) -> u64
    requires jumps { All (spec.IsJump (length jumps.now)) jumps.now }
    requires rising { AreRising jumps.now sizes.old.items losses.old }
    ensures rising { AreRising jumps.now sizes.new.items losses.new }
    ensures lost { spec.all_lost sizes.new.items ≤ spec.all_lost sizes.old.items }
{
    if call >= jumps.len() {
        return u64::MAX;
    }
    let jump = &jumps[call];
    let size = sizes[call];
    let bytes = bytes_now(jump, sizes.as_slice(), losses);
    if allows(size, jump, bytes) {
        return spare_of(size, jump, bytes);
    }
    double(sizes, losses, call, size);
    spare_of(2 * size, jump, bytes.saturating_add(size as u128))
}

/// The bytes between the points of a jump.
#[tactic(auto, unfolding(crate::specs::Jumps::jump_bytes))]
fn bytes_now(jump: &Jump, sizes: &[u8], losses: &Losses) -> u128
    requires jump { spec.IsJump (length sizes.now) jump.now }
    requires losses { AreLosses sizes.now losses.now }
    ensures { result ≡ spec.jump_bytes sizes.now jump.now }
{
    let high = jump.high.place + lost_now(&jump.low, sizes, losses);
    let low = jump.low.place + lost_now(&jump.high, sizes, losses);
    high.saturating_sub(low)
}

/// How many bytes the calls before a point lose.
#[tactic(auto, unfolding(crate::specs::Jumps::lost_before))]
fn lost_now(point: &Point, sizes: &[u8], losses: &Losses) -> u128
    requires within { point.now.call ≤ length sizes.now }
    requires losses { AreLosses sizes.now losses.now }
    ensures value { result ≡ spec.lost_before sizes.now point.now }
    ensures few { result < 2 ^ 70 }
{
    let size = size_at(sizes, point.call);
    lost_to(sizes, losses, point.call)
        + (point.depth.min(8) - point.depth.min(size as u64).min(8)) as u128
}
