//! Runs of the commands of worked examples over files and streams in memory, and whether each leaves what its example says.
#![tactic(auto)]

mod links;
mod macros;
mod refusals;
mod runs;

pub use links::{is_linked, is_linked_by_any, leaves};
pub use refusals::{is_refused, is_refused_by_any, refuses};
pub use runs::{Left, run_over, run_piped_over, run_with};
