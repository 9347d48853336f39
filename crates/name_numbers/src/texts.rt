//! Any texts by number.

ghost use Rattle.std.specs.Prelude.{◌≡◌, ◌<◌, ◌≤◌, ◌^◌, length, IfOk};
ghost use Rattle.name_numbers.specs.Keys.{key_views};
ghost use Rattle.name_numbers.specs.Texts.{text_keys, text_numbers};

use crate::racing::{number_by_all, number_by_one};
use crate::sorting::{HashedText, Key, mark_keys, sort_keys};
use intern_race::{Texts, hash_of};
use std::alloc::{AllocError, Global};
use std::thread::Threads;
use work_split::Gate;

/// Fewer texts are not worth threads.
const FEW: usize = 16_384;

/// So many pieces are placed side by side, if there are more.
const MOST: u32 = 64;

/// From so many texts on each worker may have several pieces, so many, since one processor may be slower than another.
const MANY: usize = 262_144;

const EACH: u32 = 2;

/// For each text the index of the first that is equal to it. One worker does all by itself; for more, threads are started if there are many texts,
/// and worker w passes `gate` before and after each of its two tasks.
pub fn number_texts<R: Threads + Sync, G: Gate>(
    rt: &R,
    alloc: Global,
    texts: &Texts,
    workers: u32,
    gate: &G,
) -> Result<Vec<u32>, AllocError>
    requires { length texts.now < 2 ^ 31 }
    ensures { IfOk result (λ list. list.items ≡ text_numbers texts.now) }
{
    number_cut(rt, alloc, texts, workers, true, gate)
}

/// For each text the index of the first that is equal to it, where each worker may have several pieces, or one.
pub fn number_cut<R: Threads + Sync, G: Gate>(
    rt: &R,
    alloc: Global,
    texts: &Texts,
    workers: u32,
    several: bool,
    gate: &G,
) -> Result<Vec<u32>, AllocError>
    requires { length texts.now < 2 ^ 31 }
    ensures { IfOk result (λ list. list.items ≡ text_numbers texts.now) }
{
    if workers == 1 || texts.len() < FEW {
        return number_alone(rt, alloc, texts);
    }
    number_together(rt, alloc, texts, workers, several, gate)
}

/// For each text the index of the first equal one, by one worker.
fn number_alone<R: Threads + Sync>(
    rt: &R,
    alloc: Global,
    texts: &Texts,
) -> Result<Vec<u32>, AllocError>
    requires { length texts.now < 2 ^ 31 }
    ensures { IfOk result (λ list. list.items ≡ text_numbers texts.now) }
{
    match number_by_one(alloc, texts)? {
        Some(numbers) => Ok(numbers),
        None => number_by_order(rt, alloc, texts, 1),
    }
}

/// For each text the index of the first equal one, by several workers.
fn number_together<R: Threads + Sync, G: Gate>(
    rt: &R,
    alloc: Global,
    texts: &Texts,
    workers: u32,
    several: bool,
    gate: &G,
) -> Result<Vec<u32>, AllocError>
    requires { length texts.now < 2 ^ 31 }
    ensures { IfOk result (λ list. list.items ≡ text_numbers texts.now) }
{
    let some = pieces_for(texts.len(), workers, several);
    match number_by_all(rt, alloc, texts, some, gate)? {
        Some(numbers) => Ok(numbers),
        None => number_by_order(rt, alloc, texts, workers),
    }
}

/// Into how many pieces so many texts are cut for so many workers, each of which may have several, or one.
fn pieces_for(texts: usize, workers: u32, several: bool) -> u32
    ensures some { 1 ≤ result }
    ensures most { result ≤ 64 }
{
    let few = workers.max(1).min(MOST);
    if !several || texts < MANY {
        return few;
    }
    (few * EACH).min(MOST)
}

/// For each text the index of the first equal one, by a sort by their hashes and their bytes: where hashes crowd the table, by design too.
fn number_by_order<R: Threads + Sync>(
    rt: &R,
    alloc: Global,
    texts: &Texts,
    workers: u32,
) -> Result<Vec<u32>, AllocError>
    requires { length texts.now < 2 ^ 31 }
    ensures { IfOk result (λ list. list.items ≡ text_numbers texts.now) }
{
    let mut keys = keys_of_texts(alloc, texts)?;
    let mut numbers = vec![in alloc; 0; texts.len()]?;
    sort_keys(rt, keys.as_mut_slice(), workers);
    mark_keys(numbers.as_mut_slice(), keys.as_slice());
    Ok(numbers)
}

/// The keys of texts, each with its index.
fn keys_of_texts<'t>(alloc: Global, texts: &'t Texts) -> Result<Vec<Key<'t>>, AllocError>
    requires { length texts.now < 2 ^ 31 }
    ensures { IfOk result (λ keys. key_views keys.items ≡ text_keys texts.now) }
{
    let mut keys = Vec::with_capacity(alloc, texts.len())?;
    for i in 0..texts.len() {
        let text = texts.text(i);
        keys.push(Key {
            name: HashedText {
                hash: hash_of(text),
                text,
            },
            at: i as u32,
        })?;
    }
    Ok(keys)
}
