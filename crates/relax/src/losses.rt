//! How many bytes the calls before each lose, while sizes rise.

ghost use Rattle.std.specs.Prelude.{◌≡◌, ◌/◌, ◌*◌, ◌-◌, ◌<◌, ◌≤◌, ◌^◌, length, set, slice_index_or, IfOk};
ghost use Rattle.relax.specs.Jumps as spec;
ghost use Rattle.relax.specs.Losses.{AreLosses, AreRuns, coarse_sums};

use std::alloc::{AllocError, Global};

/// How many bytes calls lose, by runs of them.
#[derive(Drop)]
pub struct Losses {
    /// By each 64 calls.
    pub near: Vec<u128>,
    /// By each 4,096.
    pub far: Vec<u128>,
}

/// What calls of these sizes lose, by the sums of what those before each lose.
pub fn losses_of(alloc: Global, sizes: &[u8], before: &[u128]) -> Result<Losses, AllocError>
    requires { before.now ≡ spec.lost_sums sizes.now }
    ensures { IfOk result (λ losses. AreLosses sizes.now losses) }
{
    let near = runs_of(alloc, sizes, before, 64)?;
    let far = runs_of(alloc, sizes, before, 4096)?;
    Ok(Losses { near, far })
}

/// What calls lose, by runs of so many.
fn runs_of(
    alloc: Global,
    sizes: &[u8],
    before: &[u128],
    width: usize,
) -> Result<Vec<u128>, AllocError>
    requires width { 0 < width }
    requires before { before.now ≡ spec.lost_sums sizes.now }
    ensures { IfOk result (λ runs. AreRuns width sizes.now runs.items) }
{
    let mut runs = Vec::with_capacity(alloc, sizes.len() / width)?;
    let mut first: usize = 0;
    while first < sizes.len() {
        let next = first.saturating_add(width).min(sizes.len());
        runs.push(before[next].saturating_sub(before[first]))?;
        first = next;
    }
    Ok(runs)
}

/// How many bytes the calls before each 16th lose: a sum for each call would be a long list.
pub fn coarse_sums(alloc: Global, sizes: &[u8]) -> Result<Vec<u128>, AllocError>
    ensures { IfOk result (λ sums. sums.items ≡ coarse_sums sizes.now) }
{
    let mut sums = Vec::with_capacity(alloc, (sizes.len() / 16).saturating_add(1))?;
    let mut sum: u128 = 0;
    for j in 0..sizes.len() / 16 {
        sums.push(sum)?;
        sum = with_calls(sizes, sum, j * 16, j * 16 + 16);
    }
    sums.push(sum)?;
    Ok(sums)
}

/// How many bytes the calls before a number lose, by these sums.
pub fn lost_by(sizes: &[u8], sums: &[u128], call: usize) -> u128
    requires sums { sums.now ≡ coarse_sums sizes.now }
    requires within { call ≤ length sizes.now }
    ensures { result ≡ spec.lost_upto sizes.now call }
{
    let near = call / 16;
    with_calls(sizes, sums[near], near * 16, call)
}

/// How many bytes the calls before a number lose.
pub fn lost_to(sizes: &[u8], losses: &Losses, call: usize) -> u128
    requires losses { AreLosses sizes.now losses.now }
    requires within { call ≤ length sizes.now }
    ensures { result ≡ spec.lost_upto sizes.now call }
{
    let far = with_runs(sizes, losses.far.as_slice(), 4096, 0, 0, call / 4096);
    let near = with_runs(
        sizes,
        losses.near.as_slice(),
        64,
        far,
        call / 4096 * 64,
        call / 64,
    );
    with_calls(sizes, near, call / 64 * 64, call)
}

/// What is lost before a run, by what is lost before an earlier one.
fn with_runs(
    sizes: &[u8],
    runs: &[u128],
    width: usize,
    before: u128,
    first: usize,
    last: usize,
) -> u128
    requires runs { AreRuns width sizes.now runs.now }
    requires before { before ≡ spec.lost_upto sizes.now (first * width) }
    requires first { first ≤ last }
    requires last { last ≤ length runs.now }
    ensures { result ≡ spec.lost_upto sizes.now (last * width) }
{
    let mut lost = before;
    for i in first..last {
        lost += runs[i];
    }
    lost
}

/// What is lost before a call, by what is lost before an earlier one.
fn with_calls(sizes: &[u8], before: u128, first: usize, last: usize) -> u128
    requires before { before ≡ spec.lost_upto sizes.now first }
    requires first { first ≤ last }
    requires last { last ≤ length sizes.now }
    ensures { result ≡ spec.lost_upto sizes.now last }
{
    let mut lost = before;
    for i in first..last {
        lost += 8_u8.saturating_sub(sizes[i]) as u128;
    }
    lost
}

/// Doubles the size of a call.
pub fn double(sizes: &mut Vec<u8>, losses: &mut Losses, call: usize, size: u8)
    requires losses { AreLosses sizes.old.items losses.old }
    requires within { call < length sizes.old.items }
    requires size { size ≡ spec.size_at sizes.old.items call }
    requires few { 2 * size ≤ 8 }
    ensures sizes { sizes.new.items ≡ set sizes.old.items call (2 * size) }
    ensures losses { AreLosses sizes.new.items losses.new }
{
    take_off(&mut losses.near, call / 64, size as u64);
    take_off(&mut losses.far, call / 4096, size as u64);
    sizes[call] = 2 * size;
}

/// Takes bytes off what a run loses.
fn take_off(runs: &mut Vec<u128>, run: usize, bytes: u64)
    requires { run < length runs.old.items }
    ensures { runs.new.items ≡ set runs.old.items run (slice_index_or runs.old.items run 0 - bytes) }
{
    runs[run] = runs[run].saturating_sub(bytes as u128);
}
