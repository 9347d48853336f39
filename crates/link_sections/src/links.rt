//! The tables of a link that is laid out.

ghost use Rattle.std.specs.Prelude.{◌≡◌};
ghost use Rattle.link_sections.specs.Links.{link_in};

use crate::got::Got;
use crate::layouts::Layout;
use crate::pools::Pools;
use crate::views::View;
use lk_base::SecNo;
use lk_tables::{Binding, Tables};

/// The tables of a link that is laid out, of which the symbols get their addresses.
#[derive(Clone, Copy)]
pub struct LaidLink<'t, 'a> {
    pub tables: &'t Tables<'a>,
    pub binding: &'t Binding,
    pub pools: &'t Pools,
    /// By section number.
    pub leaders: &'t [Option<SecNo>],
    pub got: &'t Got,
    pub layout: &'t Layout<'a>,
}

/// The tables by which addresses are read, of all tables of a link.
pub fn link_of<'t, 'a>(view: &View<'t, 'a>) -> LaidLink<'t, 'a>
    ensures { result ≡ link_in view.now }
{
    LaidLink {
        tables: view.tables,
        binding: view.binding,
        pools: view.pools,
        leaders: view.leaders,
        got: view.got,
        layout: view.layout,
    }
}
