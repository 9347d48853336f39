//! Which sections garbage collection keeps: the roots, and each section to which a kept one leads.
//!
//! Roots are the entry's section, functions to call at the start and at the end, notes, and what is flagged GNU_RETAIN.
//!
//! The calling worker marks the roots and follows what is marked by a queue of its own (`alone`), in order of the queue, so that it goes
//! through memory in order where sections lead to their neighbours. This queue is the whole search but where three workers or more are there, more
//! than 8,192 sections wait, and the first 64 of these lead to 16 sections each on average: sections of real programs lead to three or four.
//! In that case several workers go on, with marks that are a table of one word a section, each set by one atomic step of a seat, and begin
//! with what is marked. Each begins with a piece of the sections that wait and takes tasks from the others' deques (`stealing`): each 16 turns
//! a worker whose deque is empty puts the older half of its own list there, 32 sections at most, and it leaves after 256 turns in a row that
//! found nothing. At the end rounds close the marks (`closing`): all sections are looked at, by the calling worker alone if they are fewer than
//! 32,768, and each end of a marked section that has no mark is marked. The first round that finds none gives the answer.
//!
//! `root_sections` finds the roots, `following` marks what sections of a list lead to, `listing` adds a section to a list, `marks` and `rule` are the
//! table of marks, `seats` gives each worker a seat, and `keeping` does all of it in order.
#![tactic(auto)]

mod alone;
mod closing;
mod following;
mod keeping;
mod listing;
mod marks;
mod root_sections;
mod rule;
mod seats;
mod stealing;

pub use keeping::keep;
pub use marks::{MarkSeat, Marks};
pub use root_sections::roots;
pub use rule::OwnStep;
