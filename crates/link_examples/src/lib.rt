//! What worked examples of whole links share: files at hand, executables and lines that many examples leave, and the form of an example.
//!
//! `link_examples` is data alone and stands on no pass, so it is proved once, beside the passes; each crate of examples adds its own data.
#![tactic(auto)]

mod collected;
mod commands;
pub mod groups;
pub mod images;
pub mod libraries;
pub mod lines;
mod macros;
pub mod objects;
mod stores;

pub use commands::{
    Call, FIRST_LINK, Link, NO_WORDS, Outside, Refusal, SOUND, Stream, WORKERS, push_words,
    text_of, words_of,
};
pub use stores::{Files, Store, Stores, files_of, objects_of, push_objects, shared_files};
