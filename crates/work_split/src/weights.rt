//! Where work is cut into pieces of about equal weight.

ghost use Rattle.std.specs.Prelude.{◌≡◌, ◌≤◌, All, sum, length, IfOk};
ghost use Rattle.work_split.specs.Pieces.{HasEvenWeight, Tiles};

use std::alloc::{AllocError, Global};
use std::ops::Range;

// The weight of all places.
fn total_of(weights: &[u64]) -> u128
    ensures { result ≡ sum weights.now }
{
    let mut total = 0;
    for index in 0..weights.len() {
        total += weights[index] as u128;
    }
    total
}

/// Cuts the places of a list into at most so many pieces of about equal weight, in order: a piece ends as soon as it
/// has its share of what is left for the workers that are left, and the last one has the rest.
pub fn pieces_by_weight(
    alloc: Global,
    weights: &[u64],
    workers: u32,
) -> Result<Vec<Range<usize>>, AllocError>
    requires some { 1 ≤ workers }
    requires most { workers ≤ 64 }
    ensures few { IfOk result (λ pieces. length pieces.items ≤ workers) }
    ensures tiles { IfOk result (λ pieces. Tiles 0 (length weights.now) pieces.items) }
    ensures even { IfOk result (λ pieces. All (HasEvenWeight weights.now workers) pieces.items) }
{
    let mut pieces = Vec::with_capacity(alloc, weights.len().min(workers as usize))?;
    let mut left = workers as u128;
    let mut rest = total_of(weights);
    let mut share = rest.div_ceil(left);
    let mut start = 0;
    let mut weight = 0;
    for index in 0..weights.len() {
        weight += weights[index] as u128;
        if left > 1 && share <= weight {
            pieces.push(start..index + 1)?;
            start = index + 1;
            left -= 1;
            rest -= weight;
            share = rest.div_ceil(left);
            weight = 0;
        }
    }
    if start < weights.len() {
        pieces.push(start..weights.len())?;
    }
    Ok(pieces)
}
