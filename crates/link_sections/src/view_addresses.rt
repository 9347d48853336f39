//! Addresses by the tables of a link, once all of them stand.

ghost use Rattle.std.specs.Prelude.{◌≡◌, ◌^◌, ◌<◌, ◌≤ℤ◌, pos, length};
ghost use Rattle.link_sections.specs.Addresses as spec;
ghost use Rattle.link_sections.specs.LaidOut as laid;
ghost use Rattle.link_sections.specs.Views.{by_view, files_in, laid_in, leaders_in};

use crate::byte_addresses::{in_piece, in_section};
use crate::links::link_of;
use crate::numbers::number_at;
use crate::views::View;
use lk_base::{FileNo, SecNo, SymNo};

/// What a symbol of a file stands for: an address or a number; 0 if it stands for nothing, or if the file has no such symbol.
pub fn symbol_address(view: &View, file: FileNo, symbol: SymNo) -> u64
    requires { file < length (files_in view.now) }
    ensures { result ≡ by_view spec.symbol_address view.now file symbol }
{
    if view.tables.file(file).symbols().len() <= symbol as usize {
        return 0;
    }
    number_at(
        view.addresses.symbols.as_slice(),
        view.tables.symbol_no(file as usize, symbol as usize),
    )
}

/// The address of an offset, in bytes, of a section that is written as it is: it stands where its leader does. It is wider than 64 bits, so
/// that sums and differences with it are exact.
pub fn section_address(view: &View, section: SecNo, offset: u64) -> i128
    ensures value { result ≡ pos (laid.address_in (leaders_in view.now) (laid_in view.now) section offset) }
    ensures low { pos 0 ≤ℤ result }
    ensures high { result ≤ℤ pos (2 ^ 65) }
{
    in_section(&link_of(view), section, offset)
}

/// The address of an offset, in bytes, of a piece of a pool; as wide as that of a section.
pub fn piece_address(view: &View, pool: u32, piece: u32, offset: u64) -> i128
    ensures value { result ≡ pos (spec.piece_address (laid_in view.now) pool piece offset) }
    ensures low { pos 0 ≤ℤ result }
    ensures high { result ≤ℤ pos (2 ^ 66) }
{
    in_piece(&link_of(view), pool, piece, offset)
}

/// The address at which the executable starts: that of what the entry's name is bound to.
pub fn entry_address(view: &View) -> u64
    ensures { result ≡ by_view spec.entry_address view.now }
{
    view.addresses.entry
}
