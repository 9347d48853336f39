//! The flags of an executable's code (RISC-V ELF psABI, "File Header").

ghost use Rattle.std.specs.Prelude.{◌≡◌, [], bit_or};
ghost use Rattle.std.specs.List.{cons_option, fold};
ghost use Rattle.elf_out.specs.Executable as spec;
ghost use Rattle.elf_out.specs.Headers as headers;
ghost use Rattle.lk_tables.specs.TablesView.{files_of};

use lk_base::abi::{EF_RISCV_FLOAT_ABI, EF_RISCV_RVC, EF_RISCV_TSO};
use lk_tables::Tables;

/// The flags of a file, if it takes part in the link.
fn flags_at(tables: &Tables, f: usize) -> Option<u32>
    ensures { cons_option result [] ≡ spec.flags_at (files_of tables.now) f }
{
    let Some(file) = tables.files().get(f) else {
        return None;
    };
    if !file.is_live() {
        return None;
    }
    Some(file.flags())
}

/// The flags that were found, and those of one more file.
fn with_flags(found: u32, own: Option<u32>) -> u32
    ensures { result ≡ fold (λ found own. bit_or found own) found (cons_option own []) }
{
    match own {
        None => found,
        Some(own) => found | own,
    }
}

/// The flags of all files that take part, together.
#[tactic(auto, unfolding(crate::specs::Executable::live_flags))]
fn flags_together(tables: &Tables) -> u32
    ensures { result ≡ headers.flags_together (spec.live_flags (files_of tables.now)) }
{
    let mut found: u32 = 0;
    for f in 0..tables.file_count() {
        found = with_flags(found, flags_at(tables, f));
    }
    found
}

/// The flags of the first file that takes part, 0 if none does.
#[tactic(auto, unfolding(crate::specs::Executable::live_flags))]
fn first_flags(tables: &Tables) -> u32
    ensures { result ≡ headers.first_flags (spec.live_flags (files_of tables.now)) }
{
    for f in 0..tables.file_count() {
        match flags_at(tables, f) {
            None => {}
            Some(own) => return own,
        }
    }
    0
}

/// What the executable keeps of the flags of its files.
pub fn kept_flags(tables: &Tables) -> u32
    ensures { result ≡ headers.kept_flags (spec.live_flags (files_of tables.now)) }
{
    flags_together(tables) & (EF_RISCV_RVC + EF_RISCV_TSO)
        | first_flags(tables) & EF_RISCV_FLOAT_ABI
}
