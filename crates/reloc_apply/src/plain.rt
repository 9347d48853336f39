//! Which symbols of a file are known to be no SECTION symbols without a look at each (System V gABI, "Symbol Table": local symbols stand
//! before all others). The symbols of relocations stand at random places of a long table, so that each look at one waits for memory.

ghost use Rattle.std.specs.Prelude.{◌≡◌, ℕ, ◌≤◌, false};
ghost use Rattle.lk_tables.specs.Files.{file_at, is_section_symbol, symbol_at};
ghost use Rattle.link_sections.specs.Views.{files_in};
ghost use Rattle.reloc_apply.specs.Sites.{IsSite};

use crate::sites::Site;
use link_sections::View;
use lk_base::abi::STB_LOCAL;

/// So many relocations are worth a search.
const MANY: usize = 64;

/// A number from which on no symbol of a section's file is a SECTION symbol: that of the first symbol which is not local, or for few
/// relocations the number of all symbols.
pub fn plain_from(view: &View, site: Site, relocs: usize) -> usize
    requires { IsSite (files_in view.now) site }
    ensures { (k : ℕ) → result ≤ k → is_section_symbol (symbol_at (file_at (files_in view.now) site.place.file) k) ≡ false }
{
    let symbols = view.tables.file(site.place.file).symbols();
    if relocs < MANY {
        return symbols.len();
    }
    let first = symbols.partition_point(|symbol| symbol.binding == STB_LOCAL);
    let Some(symbol) = symbols.get(first) else {
        return symbols.len();
    };
    if symbol.binding == STB_LOCAL {
        return symbols.len();
    }
    first
}
