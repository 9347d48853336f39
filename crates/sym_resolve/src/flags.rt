//! Whether the live files pass numbers in floating point in one way.

ghost use Rattle.std.specs.Prelude.{◌≡◌, ◌≢◌, ◌<◌, [], ◌∷◌, length, bit_and};
ghost use Rattle.lk_base.specs.declared.abi.TheConstants.{EF_RISCV_FLOAT_ABI};
ghost use Rattle.lk_base.specs.Firsts.{IsFirst};
ghost use Rattle.lk_tables.specs.Binding.{clash_of, flag_defects};
ghost use Rattle.lk_tables.specs.Files.{file_at};
ghost use Rattle.lk_tables.specs.TablesView.{files_of};

use crate::counts::file;
use lk_base::Defect;
use lk_base::abi::EF_RISCV_FLOAT_ABI;
use lk_base::kinds::FLAGS_CLASH;
use lk_tables::Tables;

/// The first live file whose float ABI (RISC-V ELF psABI, "File Header") is not that of the first live file.
pub fn float_clash(tables: &Tables) -> Option<Defect>
    ensures { IsFirst (flag_defects (files_of tables.now)) result }
{
    tables.prove_few();
    let mut first: Option<u32> = None;
    for f in 0..tables.file_count() {
        if !is_live(tables, f) {
            continue;
        }
        let own = float_abi(tables, f);
        match first {
            None => first = Some(own),
            Some(abi) => {
                if own != abi {
                    return Some(clash_of(f as u32, own, abi));
                }
            }
        }
    }
    None
}

// Whether a file takes part in the link.
fn is_live(tables: &Tables, f: usize) -> bool
    requires { f < length (files_of tables.now) }
    ensures { result ≡ (file_at (files_of tables.now) f).live }
{
    file(tables, f).is_live()
}

// The float ABI of a file.
fn float_abi(tables: &Tables, f: usize) -> u32
    requires { f < length (files_of tables.now) }
    ensures { result ≡ bit_and (file_at (files_of tables.now) f).head.flags EF_RISCV_FLOAT_ABI }
{
    file(tables, f).flags() & EF_RISCV_FLOAT_ABI
}

// The defect of a file whose float ABI is not the first's.
fn clash_of(file: u32, own: u32, first: u32) -> Defect
    requires { own ≢ first }
    ensures { clash_of first (record { file = file; abi = own }) ≡ result ∷ [] }
{
    Defect {
        kind: FLAGS_CLASH,
        file,
        section: 0,
        place: own as u64,
        symbol: 0,
        other: first as u64,
    }
}
