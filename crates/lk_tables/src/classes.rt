//! The classes of output sections, and the rank of an output section in its class.

ghost use Rattle.std.specs.Prelude.{◌≡◌, ◌<◌, length};
ghost use Rattle.lk_tables.specs.Classes.{is_in, output_rank, place_of, rank_of_bits, rank_of_read};
ghost use Rattle.lk_tables.specs.OutputNames.{texts};

use lk_base::abi::{SHF_EXECINSTR, SHF_TLS, SHF_WRITE, SHT_NOBITS, SHT_NOTE};

/// A class of output sections, in the order in which the classes stand.
#[derive(Clone, Copy, Debug, PartialEq, Eq)]
pub enum Class {
    /// Read only.
    R,
    /// Read and executed.
    Rx,
    /// Thread-local, with bytes in the file.
    TlsBits,
    /// Thread-local, all zero, with no bytes in the file.
    TlsNobits,
    /// Written, with bytes in the file.
    RwBits,
    /// Written, all zero, with no bytes in the file.
    RwNobits,
}

/// Whether a section of this type and these flags belongs to a class.
#[tactic(auto, unfolding(crate::specs::Classes::is_in))]
pub fn is_in(class: Class, sh_type: u32, flags: u64) -> bool
    ensures { result ≡ is_in class sh_type flags }
{
    let is_tls = flags & SHF_TLS != 0;
    let writes = flags & SHF_WRITE != 0;
    let executes = flags & SHF_EXECINSTR != 0;
    let nobits = sh_type == SHT_NOBITS;
    match class {
        Class::R => !is_tls && !writes && !executes,
        Class::Rx => !is_tls && !writes && executes,
        Class::TlsBits => is_tls && !nobits,
        Class::TlsNobits => is_tls && nobits,
        Class::RwBits => !is_tls && writes && !nobits,
        Class::RwNobits => !is_tls && writes && nobits,
    }
}

/// The rank of an output section of this name among those of its class; those of one rank stand in the order of their first members.
/// `sh_type` is the type of the member that stands first in it.
#[tactic(auto, unfolding(crate::specs::Classes::output_rank))]
pub fn output_rank(class: Class, sh_type: u32, name: &[u8]) -> u32
    ensures { result ≡ output_rank class sh_type name.now }
{
    match class {
        Class::R => rank_of_read(sh_type, name),
        Class::Rx => place_of(&[b".init", b".text", b".fini"], name),
        Class::TlsBits | Class::TlsNobits => 0,
        Class::RwBits => rank_of_bits(name),
        Class::RwNobits => place_of(&[b".sbss", b".bss"], name),
    }
}

fn rank_of_read(sh_type: u32, name: &[u8]) -> u32
    ensures { result ≡ rank_of_read sh_type name.now }
{
    if sh_type == SHT_NOTE {
        return 0;
    }
    1 + place_of(&[b".rodata", b".srodata", b".gcc_except_table"], name)
}

fn rank_of_bits(name: &[u8]) -> u32
    ensures { result ≡ rank_of_bits name.now }
{
    if name == b".sdata".as_slice() {
        return 9;
    }
    place_of(
        &[
            b".preinit_array",
            b".init_array",
            b".fini_array",
            b".ctors",
            b".dtors",
            b".data.rel.ro",
            b".got",
            b".data",
        ],
        name,
    )
}

// The place of a name in a table, or the table's length.
fn place_of(table: &[&[u8]], name: &[u8]) -> u32
    requires { length table.now < 100 }
    ensures { result ≡ place_of (texts table.now) name.now }
{
    for (i, known) in table.iter().enumerate() {
        if *known == name {
            return i as u32;
        }
    }
    table.len() as u32
}
