//! Which files take part in a link: the objects of the command, and each member of an archive that one of those that take part
//! asks for.
//!
//! An undefined symbol asks for its name, and the command may ask for more. The first offer of each name is found over all files, and it is of an object of the
//! command if one offers the name: workers claim the numbers of the names, as they do where names are bound, with all
//! members after all objects. A symbol whose name a member is the first to offer pulls that member. From the objects, and
//! the members that the command asks for, these pulls are followed, each file's once.
//!
//! An archive may stand anywhere among the objects: `order` says so.
//!
//! Without an archive all files take part, and nothing is listed. `asked` finds the members that the names of the command ask for.
//!
//! `claims` has the offers as claims, `pulls` says which members a file pulls, `search` follows the pulls, and `live_files` does all of it in order.
#![tactic(auto)]

mod asked;
mod claims;
mod live_files;
mod order;
mod pulls;
mod search;

pub use live_files::live;
pub use order::prove_archives_stand_anywhere;
