//! All tables of a link together.

ghost use Rattle.std.proofs.Props.{props};
ghost use Rattle.lk_tables.specs.BindingView.{binding_view};
ghost use Rattle.lk_tables.specs.NameNumbers.{NumbersNames, heads_alone};
ghost use Rattle.lk_tables.specs.TablesView.{files_of};
ghost use Rattle.lk_tables.specs.Uppers.{AreListed, section_uppers};
ghost use Rattle.link_sections.specs.Addresses.{AreAddresses};
ghost use Rattle.link_sections.specs.GotUses.{HasAllUses};
ghost use Rattle.link_sections.specs.GotView.{entries_of};
ghost use Rattle.link_sections.specs.LaidOut.{layout_view, with_contents};
ghost use Rattle.link_sections.specs.PoolViews.{pools_view};
ghost use Rattle.link_sections.specs.Sound.{IsSound};

use crate::addresses::Addresses;
use crate::got::Got;
use crate::layouts::Layout;
use crate::pools::Pools;
use lk_base::SecNo;
use lk_tables::{Binding, NameNumbers, Tables, Uppers};

/// The tables of a link, lent, once its layout stands: which sections are kept, what is merged, which section is written in the place of
/// each, the linker's global offset table, where everything stands, what each symbol stands for, and the upper parts of each section; how
/// files are shown, and whether symbols are left out. The addresses and the upper parts are those of the tables, the layout is one of
/// them, and the global offset table has an entry for each use.
#[derive(Clone, Copy)]
pub struct View<'t, 'a> {
    /// The files, with the bodies of those that take part.
    pub tables: &'t Tables<'a>,
    /// What each name is bound to, and which sections were discarded with their groups.
    pub binding: &'t Binding,
    /// By section number, whether it is kept.
    pub kept: &'t [bool],
    /// The pools of merged pieces, and which section is merged into which.
    pub pools: &'t Pools,
    /// By section number the section that is written in its place; none where it is not kept, or is merged.
    pub leaders: &'t [Option<SecNo>],
    /// The entries of the linker's global offset table.
    pub got: &'t Got,
    /// Where everything stands.
    pub layout: &'t Layout<'a>,
    /// By symbol number, what it stands for: an address or a number; and where the executable starts.
    pub addresses: &'t Addresses,
    /// The upper parts of each section, to which its lower parts belong.
    pub uppers: &'t Uppers,
    /// By symbol number, the number of its name.
    pub numbers: &'t NameNumbers,
    /// By file number the name that the map shows; none where no map is asked for.
    pub names: &'t [Vec<u8>],
    /// Whether the executable has no symbol table.
    pub strip: bool,

    ghost found: { AreAddresses (files_of tables.now) (binding_view binding.now) leaders.now (with_contents (layout_view layout.now) (pools_view (files_of tables.now) pools.now) (entries_of got.now)) addresses.now } by { Prim.hlevel props },
    ghost numbered: { NumbersNames (heads_alone (files_of tables.now)) numbers.now } by { Prim.hlevel props },
    ghost listed: { AreListed (section_uppers (files_of tables.now)) uppers.now } by { Prim.hlevel props },
    ghost uses: { HasAllUses (files_of tables.now) leaders.now (entries_of got.now) } by { Prim.hlevel props },
    ghost sound: { IsSound (files_of tables.now) (binding_view binding.now) leaders.now (with_contents (layout_view layout.now) (pools_view (files_of tables.now) pools.now) (entries_of got.now)) } by { Prim.hlevel props },
}
