//! Texts in order, and the first of each run of equal ones: slower than a table of their hashes, but whatever the hashes are.

ghost use Rattle.std.specs.Prelude.{◌≡◌, ℕ, ◌<◌, ◌==◌, ◌||◌, ◌-◌, not, length, Contains};
ghost use Rattle.std.specs.Str.{bytes_eq};
ghost use Rattle.std.specs.List.Sorted.{IsPermutation, IsSorted};
ghost use Rattle.name_numbers.specs.Keys.{HaveHashes, KeyView, key_cmp, key_text, key_views, place_of_key, text_of_key};
ghost use Rattle.name_numbers.specs.Marks.{Marks};

use rayon::prelude::*;
use std::thread::Threads;

/// A text, after its hash: texts are in order by their tags, then by their bytes.
#[derive(Clone, Copy, PartialEq, Eq, PartialOrd, Ord)]
pub struct HashedText<'a> {
    pub hash: u64,
    pub text: &'a [u8],
}

/// A text and its index. Keys are in order by their texts, then by their indexes.
#[derive(Clone, Copy, PartialEq, Eq, PartialOrd, Ord)]
pub struct Key<'a> {
    pub name: HashedText<'a>,
    pub at: u32,
}

/// Sorts keys. Those that tie are equal in all, so their order does not matter. One worker sorts by itself; more are as many as the
/// machine has processors.
pub fn sort_keys<R: Threads + Sync>(rt: &R, list: &mut [Key], workers: u32)
    ensures permutation { IsPermutation list.old list.new }
    ensures len { length list.new ≡ length list.old }
    ensures sorted { IsSorted key_cmp list.new }
{
    if workers == 1 {
        list.sort_unstable();
    } else {
        par_sort_unstable(rt, list);
    }
}

/// Writes to the index of each key that of the first one with the same text. Keys of one text stand side by side.
pub fn mark_keys(firsts: &mut [u32], keys: &[Key])
    requires sorted { IsSorted key_cmp keys.now }
    requires right_hashes { HaveHashes (key_views keys.now) }
    requires within { (v : KeyView) → Contains (key_views keys.now) v → v.at < length firsts.old }
    requires once { (v w : KeyView) → Contains (key_views keys.now) v → Contains (key_views keys.now) w → v.at ≡ w.at → v.text ≡ w.text }
    ensures { Marks text_of_key place_of_key (key_views keys.now) firsts.old firsts.new }
{
    let mut first: u32 = 0;
    for k in 0..keys.len() {
        if is_new(keys, k) {
            first = keys[k].at;
        }
        firsts[keys[k].at as usize] = first;
    }
}

/// Whether a text is not the one before it.
fn is_new(keys: &[Key], k: usize) -> bool
    requires { k < length keys.now }
    ensures { result ≡ (k == 0 || not (bytes_eq (key_text keys.now (k - 1)) (key_text keys.now k))) }
{
    k == 0 || keys[k - 1].name.text != keys[k].name.text
}
