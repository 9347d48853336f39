//! Worked examples over `run`, each with its words and what it has to leave; those of `limits` are over `link`. All the inputs are at hand
//! in each, and each runs with several numbers of workers. `read` has the tests of the tables in other files, and `workers` one of two workers.

mod altered;
mod archives;
mod by_blocks;
mod collected;
mod far_calls;
mod faults;
mod generated;
mod groups;
mod limits;
mod numbered;
mod read;
mod workers;
mod wrong_groups;

use link_examples::{Files, Store, Stores, shared_files};
use std::alloc::{AllocError, Global};

/// Whether something holds, unless memory ran out.
type Holds = Result<bool, AllocError>;

/// The stores that the examples here name.
struct OwnStores;

impl Stores for OwnStores {
    fn files(&self, alloc: Global, store: Store) -> Result<Files, AllocError> {
        match store {
            Store::WrongGroups => wrong_groups::files(alloc),
            _ => shared_files(alloc, store),
        }
    }
}
