//! A store of files by name: what a program may ask of the file system, and what each answer means.
#![tactic(auto)]

ghost use Rattle.std.specs.Prelude.{◌≡◌, ◌<◌, ◌≤◌, [], map, take, length, string_bytes, if◌then◌else◌, is_ok, IfOk, IsErrOf, MatchResult};
ghost use Rattle.std.specs.Thread.{IsSync};
ghost use Rattle.lk_depot.specs.Faults.{Rose, Rises, HasCause};
ghost use Rattle.lk_depot.specs.Files.{IsFile, Lacks, added_if_seen, put_if_seen};
ghost use Rattle.lk_depot.specs.Loading.{AfterLoads};
ghost use Rattle.lk_depot.specs.Store.{Store, unread_after};

use crate::kinds::FileKind;
use crate::stops::{Failed, LoadAllStop, LoadStop};
use std::alloc::Global;
use std::thread::Threads;

/// A store of files.
///
/// Its ghost view is a `Store`: its files, with the kind of each, where contracts can see them, the count of its faults, the count of the
/// files that were begun, and the names that it could not read. The counts are those of this depot, since it was made.
pub trait Depot {
    ghost store: { Self → Store };

    /// The whole file of this name, in memory of its own from `alloc`.
    ///
    /// `Failed` and `Memory` say nothing of whether the file is there.
    fn load(&mut self, alloc: Global, name: &str) -> Result<Vec<u8>, LoadStop>
        ensures found { IfOk result (λ bytes. IsFile (store self.old).files name.now bytes.items) }
        ensures absent { IsErrOf result LoadStop.Absent → Lacks (store self.old).files name.now }
        ensures failed { IsErrOf result LoadStop.Failed → Rose (store self.old).faults (store self.new).faults }
        ensures unread { (store self.new).unread ≡ unread_after result name.now (store self.old).unread }
        ensures later { (store self.old).faults ≤ (store self.new).faults }
        ensures files { (store self.new).files ≡ (store self.old).files }
        ensures kinds { (store self.new).kinds ≡ (store self.old).kinds }
        ensures begun { (store self.new).begun ≡ (store self.old).begun };

    /// The files of these names, each in memory of its own from `alloc`, as loads one after another would give them.
    ///
    /// A depot may have up to so many workers, each in a thread of its own that `rt` starts, read files at once. At a failure
    /// the first one in the list is answered, whichever worker was ahead, and files that come after it may have been read.
    /// The clause on `rt` says what its bound does: that workers may share it. Where a depot has no `load_files` of its own, its files are loaded one after another.
    fn load_files<R: Threads + Sync>(
        &mut self,
        rt: &R,
        alloc: Global,
        names: &[String],
        workers: u32,
    ) -> Result<Vec<Vec<u8>>, LoadAllStop>
        requires sync { IsSync R.row }
        requires some { 1 ≤ workers }
        requires most { workers ≤ 64 }
        ensures loads { AfterLoads (store self.old) (store self.new) (map string_bytes names.now) result }
        ensures later { (store self.old).faults ≤ (store self.new).faults }
        ensures files { (store self.new).files ≡ (store self.old).files }
        ensures kinds { (store self.new).kinds ≡ (store self.old).kinds }
        ensures begun { (store self.new).begun ≡ (store self.old).begun }
    {
        let mut contents = Vec::new(alloc);
        for (index, name) in names.iter().enumerate() {
            let bytes = match self.load(alloc, name.as_str()) {
                Ok(bytes) => bytes,
                Err(LoadStop::Absent) => return Err(LoadAllStop::Absent { index }),
                Err(LoadStop::Failed) => return Err(LoadAllStop::Failed { index }),
                Err(LoadStop::Memory) => return Err(LoadAllStop::Memory),
            };
            contents.push(bytes).map_err(|_| LoadAllStop::Memory)?;
        }
        Ok(contents)
    }

    /// Makes the file of this name anew and empty, or empties the one that is there.
    ///
    /// If it fails, the file is left as it was.
    fn begin(&mut self, name: &str, kind: FileKind) -> Result<(), Failed>
        ensures files { let old = (store self.old).files in
            (store self.new).files ≡ (if is_ok result then put_if_seen name.now [] old else old) }
        ensures kinds { let old = (store self.old).kinds in
            (store self.new).kinds ≡ (if is_ok result then put_if_seen name.now kind old else old) }
        ensures begun { Rises (store self.old).begun (store self.new).begun }
        ensures cause { HasCause (store self.old).faults (store self.new).faults result }
        ensures unread { (store self.new).unread ≡ (store self.old).unread };

    /// Adds the first bytes of `piece` to the end of the file of this name, at least one of them, and says how many.
    ///
    /// If it fails, the file is left as it was.
    fn append(&mut self, name: &str, piece: &[u8]) -> Result<usize, Failed>
        requires { 0 < length piece.now }
        ensures some { IfOk result (λ n. 0 < n) }
        ensures most { IfOk result (λ n. n ≤ length piece.now) }
        ensures files { MatchResult result
            (λ n. (store self.new).files ≡ added_if_seen name.now (take n piece.now) (store self.old).files)
            (λ _. (store self.new).files ≡ (store self.old).files) }
        ensures cause { HasCause (store self.old).faults (store self.new).faults result }
        ensures kinds { (store self.new).kinds ≡ (store self.old).kinds }
        ensures begun { (store self.new).begun ≡ (store self.old).begun }
        ensures unread { (store self.new).unread ≡ (store self.old).unread };
}
