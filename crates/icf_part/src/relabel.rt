//! Items that get another label.

ghost use Rattle.std.specs.Prelude.{◌≡◌, ◌≢◌, ℕ, ◌+◌, ◌==◌, ◌<◌, ◌^◌, All, length, slice_index, slice_set, if◌then◌else◌};
ghost use Rattle.icf_part.specs.Classes.{relabelled, size_of};

/// Gives the items of a list that have one label another, and says how many these were.
pub fn relabel(labels: &mut Vec<u32>, part: &[u32], from: u32, to: u32) -> u32
    requires apart { from ≢ to }
    requires within { All (λ a. a < length labels.old.items) part.now }
    requires few { length labels.old.items < 2 ^ 31 }
    ensures wide { length labels.new.items ≡ length labels.old.items }
    ensures each { (a : ℕ) → a < length labels.old.items → slice_index labels.new.items a ≡ relabelled part.now from to labels.old.items a }
    ensures less { size_of from labels.new.items + result ≡ size_of from labels.old.items }
    ensures more { size_of to labels.new.items ≡ size_of to labels.old.items + result }
{
    let mut moved = 0;
    for i in 0..part.len() {
        moved += relabel_one(labels, part[i] as usize, from, to);
    }
    moved
}

/// Gives one item another label if it has the one, and says how many these were.
fn relabel_one(labels: &mut Vec<u32>, a: usize, from: u32, to: u32) -> u32
    requires within { a < length labels.old.items }
    ensures labels { labels.new.items ≡ (if slice_index labels.old.items a == from then slice_set labels.old.items a to else labels.old.items) }
    ensures moved { result ≡ (if slice_index labels.old.items a == from then 1 else 0) }
{
    if labels[a] != from {
        return 0;
    }
    labels[a] = to;
    1
}
