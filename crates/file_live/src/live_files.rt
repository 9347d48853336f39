//! The files that take part in a link.

ghost use Rattle.std.specs.Prelude.{◌≡◌, ℕ, ◌<◌, ◌≤◌, ◌^◌, false, length, IfOk};
ghost use Rattle.lk_tables.specs.FileView.{file_views};
ghost use Rattle.lk_tables.specs.Files.{file_at, symbol_total};
ghost use Rattle.lk_tables.specs.NameNumbers.{NumbersNames, heads_alone};
ghost use Rattle.lk_tables.specs.TablesView.{heads_of};
ghost use Rattle.file_live.specs.Live.{live_of, IsLive};
ghost use Rattle.file_live.specs.Pulls.{lists_of};

use crate::claims::claims_of;
use crate::search::reach;
use claim_rows::least_offers;
use lk_tables::{File, Heads, NameNumbers};
use name_numbers::number_names;
use std::alloc::{AllocError, Global};
use std::thread::Threads;
use work_split::Gate;

/// By number, whether a file takes part in the link: the objects of the command do, and each member that `undefined`, names that the command
/// asks for, or a symbol of one that does ask for. It answers the same whatever the number of workers. Where a file is a member, names that have no numbers yet
/// are numbered for this call.
pub fn live<R: Threads + Sync, G: Gate>(
    rt: &R,
    alloc: Global,
    heads: &Heads,
    undefined: &[Vec<u8>],
    workers: u32,
    gate: &G,
) -> Result<Vec<bool>, AllocError>
    requires some { 1 ≤ workers }
    requires most { workers ≤ 64 }
    requires symbols { symbol_total (heads_of heads.now) < 2 ^ 31 }
    ensures live { IfOk result (λ list. list.items ≡ live_of (lists_of undefined.now) (heads_of heads.now)) }
    ensures least { IfOk result (λ list. IsLive (lists_of undefined.now) (heads_of heads.now) list.items) }
{
    let files = heads.files();
    if !has_member(files) {
        return all_live(alloc, files, undefined);
    }
    if let Some(names) = heads.names() {
        return live_by(rt, alloc, files, undefined, names, workers, gate);
    }
    let names = number_names(rt, alloc, files, workers, gate)?;
    live_by(rt, alloc, files, undefined, &names, workers, gate)
}

/// By number, whether a file takes part in the link, by the numbers of the files' names.
fn live_by<R: Threads + Sync, G: Gate>(
    rt: &R,
    alloc: Global,
    files: &[File],
    undefined: &[Vec<u8>],
    names: &NameNumbers,
    workers: u32,
    gate: &G,
) -> Result<Vec<bool>, AllocError>
    requires some { 1 ≤ workers }
    requires most { workers ≤ 64 }
    requires files { length files.now < 2 ^ 24 }
    requires symbols { symbol_total (file_views files.now) < 2 ^ 31 }
    requires names { NumbersNames (heads_alone (file_views files.now)) names.now }
    ensures live { IfOk result (λ list. list.items ≡ live_of (lists_of undefined.now) (file_views files.now)) }
    ensures least { IfOk result (λ list. IsLive (lists_of undefined.now) (file_views files.now) list.items) }
{
    let words = names.numbers.len() as u32;
    let claims = claims_of(alloc, files, names)?;
    let row = least_offers(rt, alloc, gate, workers, words, claims.as_slice())?;
    reach(alloc, files, undefined, names, row.as_slice())
}

/// Whether a file is a member of an archive.
fn has_member(files: &[File]) -> bool
    ensures { result ≡ false → (f : ℕ) → f < length files.now → (file_at (file_views files.now) f).member ≡ false }
{
    for f in 0..files.len() {
        if files[f].is_member() {
            return true;
        }
    }
    false
}

/// All files, each of which is an object of the command, whatever else this asks for.
fn all_live(alloc: Global, files: &[File], undefined: &[Vec<u8>]) -> Result<Vec<bool>, AllocError>
    requires files { length files.now < 2 ^ 24 }
    requires symbols { symbol_total (file_views files.now) < 2 ^ 31 }
    requires own { (f : ℕ) → f < length files.now → (file_at (file_views files.now) f).member ≡ false }
    ensures live { IfOk result (λ list. list.items ≡ live_of (lists_of undefined.now) (file_views files.now)) }
    ensures least { IfOk result (λ list. IsLive (lists_of undefined.now) (file_views files.now) list.items) }
{
    let all = vec![in alloc; true; files.len()]?;
    Ok(all)
}
