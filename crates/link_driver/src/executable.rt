//! The executable of a link before its bytes are made: the tables that they are made of, all of them its own.

ghost use Rattle.std.specs.Prelude.{◌≡◌, true};
ghost use Rattle.std.proofs.Props.{props};
ghost use Rattle.elf_out.specs.Executable.{own_tables};
ghost use Rattle.elf_out.specs.Prepared.{IsPrepared};
ghost use Rattle.link_sections.specs.Addresses.{AreAddresses};
ghost use Rattle.link_sections.specs.GotUses.{HasAllUses};
ghost use Rattle.link_sections.specs.GotView.{entries_of};
ghost use Rattle.link_sections.specs.LaidOut.{layout_view, with_contents};
ghost use Rattle.link_sections.specs.PoolViews.{pools_view};
ghost use Rattle.link_sections.specs.Sound.{IsSound};
ghost use Rattle.lk_tables.specs.BindingView.{binding_view};
ghost use Rattle.lk_tables.specs.TablesView.{files_of, have_numbers};
ghost use Rattle.lk_tables.specs.Uppers.{AreListed, section_uppers};

use elf_out::Prepared;
use link_sections::{Addresses, Got, Layout, Pools};
use lk_base::SecNo;
use lk_tables::{Binding, FrameBytes, Tables, Uppers};

/// What a [`View`](link_sections::View) of a link lends to those who make blocks of its executable, with what is made of the file before its first
/// block. How files are shown is not kept: only a map shows them.
#[derive(Drop)]
pub struct Executable<'a> {
    pub tables: Tables<'a>,
    pub binding: Binding,
    /// By section number, whether it is kept.
    pub kept: Vec<bool>,
    pub pools: Pools,
    /// By section number, which section is written in the place of each.
    pub leaders: Vec<Option<SecNo>>,
    pub got: Got,
    pub layout: Layout<'a>,
    pub addresses: Addresses,
    pub uppers: Uppers,
    /// Whether there is no symbol table.
    pub strip: bool,
    /// What `.eh_frame_hdr` and `.eh_frame` hold.
    pub frames: FrameBytes,
    pub prepared: Prepared,

    ghost found: { AreAddresses (files_of tables) (binding_view binding) leaders.items (with_contents (layout_view layout) (pools_view (files_of tables) pools) (entries_of got)) addresses } by { Prim.hlevel props },
    ghost numbered: { have_numbers tables ≡ true } by { Prim.hlevel props },
    ghost listed: { AreListed (section_uppers (files_of tables)) uppers } by { Prim.hlevel props },
    ghost uses: { HasAllUses (files_of tables) leaders.items (entries_of got) } by { Prim.hlevel props },
    ghost sound: { IsSound (files_of tables) (binding_view binding) leaders.items (with_contents (layout_view layout) (pools_view (files_of tables) pools) (entries_of got)) } by { Prim.hlevel props },
    ghost ready: { IsPrepared (files_of tables) (binding_view binding) leaders.items (with_contents (layout_view layout) (pools_view (files_of tables) pools) (entries_of got)) (own_tables (files_of tables) (binding_view binding) kept.items strip leaders.items (with_contents (layout_view layout) (pools_view (files_of tables) pools) (entries_of got))) prepared } by { Prim.hlevel props },
}
