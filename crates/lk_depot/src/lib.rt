//! The outside of a program: a store of files and streams to write to, each as a trait whose contracts say what a call
//! does to it, the loops that load and write all of something, and forms of both that live in memory.
#![tactic(auto)]

mod faults;
mod kinds;
mod loading;
mod mem_depot;
mod mem_sink;
mod output;
mod script;
mod slot;
mod stops;
mod store;
#[cfg(test)]
mod tests;
mod writing;

pub use kinds::FileKind;
pub use loading::load_all;
pub use mem_depot::MemDepot;
pub use mem_sink::MemSink;
pub use output::Sink;
pub use stops::{Failed, LoadAllStop, LoadStop};
pub use store::Depot;
pub use writing::{put_all, say_all};
