//! Runs of one upper half in a sorted list of pairs of numbers of 32 bits.

ghost use Rattle.std.specs.Prelude.{◌≡◌, ◌≢◌, ℕ, ◌/◌, ◌<◌, ◌≤◌, ◌^◌, length, slice_index, Contains, IfOk, OnOk};
ghost use Rattle.icf_part.specs.Classes.{word};
ghost use Rattle.icf_part.specs.Runs.{IsCut, IsRising};

use std::alloc::AllocError;

/// Sorts numbers.
pub fn sort_words(words: &mut Vec<u64>)
    ensures rising { IsRising words.new.items }
    ensures all { (w : ℕ) → Contains words.old.items w → Contains words.new.items w }
    ensures only { (w : ℕ) → Contains words.new.items w → Contains words.old.items w }
{
    sort_slice(words.as_mut_slice());
}

/// Sorts the numbers of a slice.
fn sort_slice(words: &mut [u64])
    ensures len { length words.new ≡ length words.old }
    ensures rising { IsRising words.new }
    ensures all { (w : ℕ) → Contains words.old w → Contains words.new w }
    ensures only { (w : ℕ) → Contains words.new w → Contains words.old w }
{
    words.sort_unstable();
}

/// Puts the lower halves of the run that begins at a place into a list, whatever stands there, and gives the run's end.
pub fn next_run(part: &mut Vec<u32>, words: &[u64], at: usize) -> Result<usize, AllocError>
    requires within { at < length words.now }
    requires rising { IsRising words.now }
    requires cut { IsCut words.now at }
    ensures more { IfOk result (λ end. at < end) }
    ensures within { IfOk result (λ end. end ≤ length words.now) }
    ensures cut { IfOk result (λ end. IsCut words.now end) }
    ensures same { IfOk result (λ end. (i : ℕ) → at ≤ i → i < end → slice_index words.now i / 2 ^ 32 ≡ slice_index words.now at / 2 ^ 32) }
    ensures some { OnOk result (0 < length part.new.items) }
    ensures all { OnOk result ((x : ℕ) → x < 2 ^ 32 → Contains words.now (word (slice_index words.now at / 2 ^ 32) x) → Contains part.new.items x) }
    ensures only { OnOk result ((x : ℕ) → Contains part.new.items x → (x < 2 ^ 32) × Contains words.now (word (slice_index words.now at / 2 ^ 32) x)) }
{
    part.clear();
    let end = run_end(words, at);
    for i in at..end {
        part.push((words[i] % 0x1_0000_0000) as u32)?;
    }
    Ok(end)
}

/// The upper half of a number in a list.
pub fn upper_at(words: &[u64], at: usize) -> u32
    requires { at < length words.now }
    ensures { result ≡ slice_index words.now at / 2 ^ 32 }
{
    (words[at] / 0x1_0000_0000) as u32
}

/// Where the run ends.
fn run_end(words: &[u64], at: usize) -> usize
    requires { at < length words.now }
    ensures more { at < result }
    ensures within { result ≤ length words.now }
    ensures same { (i : ℕ) → at ≤ i → i < result → slice_index words.now i / 2 ^ 32 ≡ slice_index words.now at / 2 ^ 32 }
    ensures next { result < length words.now → slice_index words.now result / 2 ^ 32 ≢ slice_index words.now at / 2 ^ 32 }
{
    let upper = words[at] / 0x1_0000_0000;
    for i in at + 1..words.len() {
        if words[i] / 0x1_0000_0000 != upper {
            return i;
        }
    }
    words.len()
}
