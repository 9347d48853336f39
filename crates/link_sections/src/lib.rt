//! What the passes know of the sections of a link, by their numbers: what each is by its header, which are kept, which section is written
//! in the place of each, where a section loses bytes, where everything stands, and the addresses by this.
//!
//! A pool shows the number of its first section in place of its key: name, flags, size of entries and alignment are read there. `Sizes`
//! lists the places that lose bytes, by section and offset, so a call of eight bytes is none of them.
#![tactic(auto)]

mod addresses;
mod byte_addresses;
mod cuts;
mod edges;
mod fold_items;
mod got;
mod got_lists;
mod input_sections;
mod layouts;
mod leaders;
mod links;
mod members;
mod numbers;
mod offsets;
mod pieces;
mod pool_lists;
mod pools;
mod sizes;
mod targets;
mod view_addresses;
mod views;

pub use addresses::Addresses;
pub use byte_addresses::{in_piece, in_section};
pub use cuts::Cut;
pub use edges::Edges;
pub use fold_items::{FoldFrame, FoldItem, FoldReloc};
pub use got::{Got, GotEntry, GotUse};
pub use got_lists::{key_of, use_of};
pub use input_sections::{InputSection, all_kept, input_in, input_section, may_stay};
pub use layouts::{Bounds, Layout, OutputPlace, OutputSection};
pub use leaders::{fold_leaders, is_kept, leads, own_leaders};
pub use links::LaidLink;
pub use members::{Content, Member};
pub use numbers::{leader_of, number_at, offset_in, start_of};
pub use offsets::new_offset;
pub use pieces::{Merged, Part, Piece, PieceRows};
pub use pools::{Pool, Pools};
pub use sizes::Sizes;
pub use targets::{Target, target_of};
pub use view_addresses::{entry_address, piece_address, section_address, symbol_address};
pub use views::View;
