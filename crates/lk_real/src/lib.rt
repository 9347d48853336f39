//! The outside for real: the files of the system as a store, and the two standard streams to write to. The contracts of both
//! say what failed, and nothing of what a file holds or a stream was given: that is the system's.
//!
//! Beside files and streams `lk_real` has what a program does first: its words (`words_of`), and what it asks of the system for its memory and its streams.
//!
//! Of a list of files each worker reads a share, up to the first that it can't read. The shares are joined in order, and the first failure
//! of all is answered, counted and named. A worker is given 24 files at least, so a list of up to 47 is read file after file, and none
//! after the first failure. Each loading thread keeps a buffer of 128 KB, so that a file costs an open, a seek, a read for each 128 KB and
//! a close. Where all files are read by the calling thread, and there are three workers or more, they read a file of 16 MB or more together.
//! Where seeking tells no end, as at a pipe or a file of the system's own, a file is read until it ends.
//!
//! `program` has what a program does first, `real_depot` and `std_sink` are the store and the streams, `reading` reads a file or a list of them,
//! `large` one large file by all workers, and `output` begins a file that is written.
#![tactic(auto)]

mod large;
mod output;
mod program;
mod reading;
mod real_depot;
mod std_sink;
#[cfg(test)]
mod tests;

pub use program::{keep_freed_memory, null_device, words_of};
pub use real_depot::RealDepot;
pub use std_sink::{StdSink, Stream};
