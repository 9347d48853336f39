//! Symbols that are referred to and stand for nothing (System V gABI, "Symbol Table").

ghost use Rattle.std.specs.Prelude.{◌≡◌, ◌≢◌, ℕ, ◌<◌, ◌==◌, length, true, false};
ghost use Rattle.std.proofs.Props.{props};
ghost use Rattle.lk_base.specs.Firsts.{IsFirst};
ghost use Rattle.lk_base.specs.declared.abi.TheConstants.{STB_WEAK};
ghost use Rattle.lk_tables.specs.BindingView.{binding_view};
ghost use Rattle.lk_tables.specs.Files.{file_at, is_visible, symbol_at};
ghost use Rattle.lk_tables.specs.Ranks.{no_rank};
ghost use Rattle.lk_tables.specs.Targets.{bound_by, is_undefined};
ghost use Rattle.lk_tables.specs.TablesView.{files_of};
ghost use Rattle.sec_graph.specs.FrameRelocs.{AreFramesOf};
ghost use Rattle.sec_graph.specs.Prevailing.{PrevailingStand, is_nobody};
ghost use Rattle.sec_graph.specs.Undefined as spec;

use crate::needed_frames::is_needed;
use crate::prevailing::{is_discarded, is_prevailing, prevailing_stand};
use link_sections::is_kept;
use lk_base::abi::STB_WEAK;
use lk_base::kinds::UNDEFINED;
use lk_base::relocations::names_a_symbol;
use lk_base::{Defect, FileNo, SymNo};
use lk_tables::{
    Binding, Frames, NO_RANK, Reloc, RelocTest, Symbol, Tables, first_over_relocs, is_common,
    is_undefined, is_visible, reloc_defect,
};

/// The first relocation of a kept section, in order of file, section and offset, whose symbol stands for nothing, though it is not
/// WEAK: nothing defines its name, or it stands in a section that was discarded with its group. Of a kept function's FDEs all
/// relocations but that of PC Begin count as well, and all relocations of their CIEs. `kept` goes by section number; a number past its end is not kept. The
/// relocations of a file are read only if one of its symbols stands for nothing. Takes no memory.
pub fn undefined(
    tables: &Tables,
    binding: &Binding,
    kept: &[bool],
    frames: &Frames,
) -> Option<Defect>
    requires { AreFramesOf (files_of tables.now) (binding_view binding.now) frames.now }
    ensures { IsFirst (spec.undefined_defects (files_of tables.now) (binding_view binding.now) kept.now) result }
{
    first_over_relocs(
        tables,
        &SymbolTest {
            tables,
            binding,
            kept,
            frames,
            prevailing_stand: prevailing_stand(tables, binding),
        },
    )
}

/// Tests whether the symbols of kept sections' relocations are defined.
#[derive(Clone, Copy)]
struct SymbolTest<'t, 'a> {
    tables: &'t Tables<'a>,
    binding: &'t Binding,
    kept: &'t [bool],
    frames: &'t Frames,
    /// Whether each symbol that prevails stands for something: then a name that is bound to one is not looked up in the file of that.
    prevailing_stand: bool,

    ghost framed: { AreFramesOf (files_of tables.now) (binding_view binding.now) frames.now } by { Prim.hlevel props },
    ghost stand: { prevailing_stand ≡ true → PrevailingStand (files_of tables.now) (binding_view binding.now) } by { Prim.hlevel props },
}

impl<'t, 'a> RelocTest for SymbolTest<'t, 'a> {
    ghost files = { λ self. files_of self.tables.now };

    ghost defects = { λ self. spec.undefined_at (files_of self.tables.now) (binding_view self.binding.now) self.kept.now };

    fn wants(&self, file: FileNo) -> bool {
        has_undefined(self, file)
    }

    fn check(&self, file: FileNo, section: u32, reloc: &Reloc) -> Option<Defect> {
        check_reloc(self, file, section, reloc)
    }
}

/// Whether a file has a symbol that is undefined.
fn has_undefined(test: &SymbolTest, file: FileNo) -> bool
    requires { file < length (files_of test.now.tables.now) }
    ensures { result ≡ false → (i : ℕ) → is_undefined (files_of test.now.tables.now) (binding_view test.now.binding.now) file i ≡ false }
{
    test.tables.prove_few();
    let symbols = test.tables.file(file).symbols();
    for symbol in 0..symbols.len() {
        if stands_for_nothing(test, file, symbol as u32, &symbols[symbol]) {
            return true;
        }
    }
    false
}

/// Whether a symbol is undefined and has to be defined. Of a local one its own definition decides.
fn stands_for_nothing(test: &SymbolTest, file: FileNo, symbol: SymNo, own: &Symbol) -> bool
    requires file { file < length (files_of test.now.tables.now) }
    requires own { own.now ≡ symbol_at (file_at (files_of test.now.tables.now) file) symbol }
    ensures { result ≡ is_undefined (files_of test.now.tables.now) (binding_view test.now.binding.now) file symbol }
{
    if own.binding == STB_WEAK {
        return false;
    }
    if is_visible(own) {
        return is_unbound(test, file, symbol);
    }
    if is_common(own) {
        return is_undefined(test.tables, test.binding, file, symbol);
    }
    is_discarded(test.tables, test.binding, file, own.place)
}

/// Whether the name of a symbol that other files see, and that is not WEAK, stands for nothing. The file of the symbol to which it is bound
/// is asked only where that is not known.
fn is_unbound(test: &SymbolTest, file: FileNo, symbol: SymNo) -> bool
    requires file { file < length (files_of test.now.tables.now) }
    requires strong { ((symbol_at (file_at (files_of test.now.tables.now) file) symbol).binding == STB_WEAK) ≡ false }
    requires visible { is_visible (symbol_at (file_at (files_of test.now.tables.now) file) symbol) ≡ true }
    ensures { result ≡ is_undefined (files_of test.now.tables.now) (binding_view test.now.binding.now) file symbol }
{
    let number = test.tables.symbol_no(file as usize, symbol as usize);
    let rank = test.binding.rank_at(number);
    if rank == NO_RANK {
        return true;
    }
    if is_surely_bound(test, rank) {
        return false;
    }
    is_undefined(test.tables, test.binding, file, symbol)
}

/// Whether a rank is known to name something without a look into its file: what prevails stands for something.
fn is_surely_bound(test: &SymbolTest, rank: u64) -> bool
    requires { rank ≢ no_rank }
    ensures { result ≡ true → is_nobody (bound_by (files_of test.now.tables.now) (binding_view test.now.binding.now) rank) ≡ false }
{
    if !test.prevailing_stand {
        return false;
    }
    is_prevailing(test.tables, test.binding, rank)
}

/// Whether the symbol of a number in a file is undefined and has to be defined.
fn names_nothing(test: &SymbolTest, file: FileNo, symbol: SymNo) -> bool
    requires { file < length (files_of test.now.tables.now) }
    ensures { result ≡ is_undefined (files_of test.now.tables.now) (binding_view test.now.binding.now) file symbol }
{
    let own = test.tables.file(file).symbol(symbol as usize);
    stands_for_nothing(test, file, symbol, &own)
}

/// The defect of one relocation, if it is needed and its symbol is undefined.
#[tactic(auto, unfolding(crate::specs::Undefined::undefined_at))]
fn check_reloc(test: &SymbolTest, file: FileNo, section: u32, reloc: &Reloc) -> Option<Defect>
    requires { file < length (files_of test.now.tables.now) }
    ensures { IsFirst (spec.undefined_at (files_of test.now.tables.now) (binding_view test.now.binding.now) test.now.kept.now file section reloc.now) result }
{
    if !names_a_symbol(reloc.kind) || !names_nothing(test, file, reloc.symbol) {
        return None;
    }
    let number = test.tables.section_no(file as usize, section as usize);
    if !is_kept(test.kept, number)
        && !is_needed(
            test.tables,
            test.binding,
            test.kept,
            test.frames,
            number,
            reloc,
        )
    {
        return None;
    }
    Some(reloc_defect(UNDEFINED, file, section, reloc, 0))
}
