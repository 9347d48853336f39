//! Loading a list of files in order.
#![tactic(auto)]

ghost use Rattle.std.specs.Prelude.{◌≡◌, ◌≤◌, map, string_bytes};
ghost use Rattle.lk_depot.specs.Loading.{AfterLoads};

use crate::stops::{LoadAllStop, LoadStop};
use crate::store::Depot;
use std::alloc::Global;

/// Loads the files of these names, one after another, each in memory of its own from `alloc`.
///
/// The first load that does not answer Ok ends the call, and the files that were loaded before it are dropped. So at
/// `Absent` and `Failed` each load before `index` was made and answered Ok, and none was made after it. The clauses say this
/// of every depot, by its ghost view: if contracts can see its files it has that of each name before `index`, and `unread` has no
/// new name but the one at `index`, though each load more could add one. Since a depot does not count its loads, no clause says
/// how often a file was loaded, nor, if a name stands in the list more than once, which of its loads failed.
pub fn load_all<D: Depot>(
    alloc: Global,
    depot: &mut D,
    names: &[String],
) -> Result<Vec<Vec<u8>>, LoadAllStop>
    ensures loads { AfterLoads (D.store depot.old) (D.store depot.new) (map string_bytes names.now) result }
    ensures later { (D.store depot.old).faults ≤ (D.store depot.new).faults }
    ensures files { (D.store depot.new).files ≡ (D.store depot.old).files }
    ensures kinds { (D.store depot.new).kinds ≡ (D.store depot.old).kinds }
    ensures begun { (D.store depot.new).begun ≡ (D.store depot.old).begun }
{
    let mut contents = Vec::new(alloc);
    for (index, name) in names.iter().enumerate() {
        let bytes = match depot.load(alloc, name.as_str()) {
            Ok(bytes) => bytes,
            Err(LoadStop::Absent) => return Err(LoadAllStop::Absent { index }),
            Err(LoadStop::Failed) => return Err(LoadAllStop::Failed { index }),
            Err(LoadStop::Memory) => return Err(LoadAllStop::Memory),
        };
        contents.push(bytes).map_err(|_| LoadAllStop::Memory)?;
    }
    Ok(contents)
}
