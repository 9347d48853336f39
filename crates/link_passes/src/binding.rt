//! The binding of all names, and the count of the pieces beside it.

ghost use Rattle.std.specs.Prelude.{◌≡◌, ◌<◌, ◌≤◌, true, IfOk};
ghost use Rattle.comdat.specs.Discarded.{discarded};
ghost use Rattle.link_sections.specs.Merging.{piece_count};
ghost use Rattle.lk_base.specs.Firsts.{Goes};
ghost use Rattle.lk_tables.specs.BoundNames.{binding_defects};
ghost use Rattle.lk_tables.specs.BindingView.{binding_view};
ghost use Rattle.lk_tables.specs.TablesView.{files_of};
ghost use Rattle.link_passes.specs.Defects.{takes_no_memory};
ghost use Rattle.link_passes.specs.Passes.{bound_names, piece_defects};
ghost use Rattle.sym_resolve.specs.Law.{IsLawful};

use comdat::discard;
use lk_base::{Limits, LinkStop, check_count};
use lk_tables::{Binding, Tables};
use std::alloc::Global;
use std::thread::{Threads, join_mut};
use str_merge::{piece_bound, piece_count};
use sym_resolve::bind;
use work_split::Gate;

/// Binds all names: of the COMDAT groups of one signature one copy counts.
///
/// Stops at the first clash of float ABIs; else at the first name that is defined twice; else where the entry is bound to nothing. Or it is out
/// of memory.
#[tactic(auto, unfolding(crate::specs::Passes::bound_names))]
pub fn bind_names<R: Threads + Sync, G: Gate>(
    rt: &R,
    alloc: Global,
    tables: &Tables,
    entry: &str,
    workers: u32,
    gate: &G,
) -> Result<Binding, LinkStop>
    requires some { 1 ≤ workers }
    requires most { workers ≤ 64 }
    ensures goes { Goes result (binding_defects (files_of tables.now) (discarded (files_of tables.now)) entry.now) }
    ensures names { IfOk result (λ binding. binding_view binding ≡ bound_names (files_of tables.now) entry.now) }
    ensures least { IfOk result (λ _. IsLawful (files_of tables.now) (discarded (files_of tables.now)) entry.now (bound_names (files_of tables.now) entry.now)) }
{
    let discarded = discard(rt, alloc, tables, workers, gate)?;
    bind(
        rt,
        alloc,
        tables,
        discarded.as_slice(),
        entry.as_bytes(),
        workers,
        gate,
    )
}

/// Refuses more pieces than a link may have. They are counted only where there are enough bytes for so many. It takes no memory.
#[tactic(auto, unfolding(crate::specs::Passes::piece_defects))]
fn check_pieces(tables: &Tables, limits: &Limits) -> Result<(), LinkStop>
    ensures goes { Goes result (piece_defects limits.now (files_of tables.now)) }
    ensures named { takes_no_memory result ≡ true }
{
    if piece_bound(tables) <= limits.pieces {
        return Ok(());
    }
    match check_count(limits.pieces, piece_count(tables)) {
        Ok(()) => Ok(()),
        Err(defect) => Err(LinkStop::Defect(defect)),
    }
}

/// Whether there are no more pieces than a link may have, and all names bound. With two workers or more another thread looks at the pieces
/// meanwhile, since neither needs the other.
pub fn bind_and_count<R: Threads + Sync, G: Gate>(
    rt: &R,
    alloc: Global,
    limits: &Limits,
    tables: &Tables,
    entry: &str,
    workers: u32,
    gate: &G,
) -> (Result<(), LinkStop>, Result<Binding, LinkStop>)
    requires some { 1 ≤ workers }
    requires most { workers ≤ 64 }
    ensures few { Goes result.0 (piece_defects limits.now (files_of tables.now)) }
    ensures named { takes_no_memory result.0 ≡ true }
    ensures goes { Goes result.1 (binding_defects (files_of tables.now) (discarded (files_of tables.now)) entry.now) }
    ensures names { IfOk result.1 (λ binding. binding_view binding ≡ bound_names (files_of tables.now) entry.now) }
    ensures least { IfOk result.1 (λ _. IsLawful (files_of tables.now) (discarded (files_of tables.now)) entry.now (bound_names (files_of tables.now) entry.now)) }
{
    if workers == 1 {
        let few = check_pieces(tables, limits);
        return (few, bind_names(rt, alloc, tables, entry, workers, gate));
    }
    join_mut(
        rt,
        &mut || -> Result<(), LinkStop>
            ensures { Goes result (piece_defects limits.entry.now (files_of tables.entry.now)) × (takes_no_memory result ≡ true) }
        { check_pieces(tables, limits) },
        &mut || -> Result<Binding, LinkStop>
            requires { (1 ≤ workers) × (workers ≤ 64) }
            ensures { Goes result (binding_defects (files_of tables.entry.now) (discarded (files_of tables.entry.now)) entry.entry.now) × IfOk result (λ binding. binding_view binding ≡ bound_names (files_of tables.entry.now) entry.entry.now) × IfOk result (λ _. IsLawful (files_of tables.entry.now) (discarded (files_of tables.entry.now)) entry.entry.now (bound_names (files_of tables.entry.now) entry.entry.now)) }
        { bind_names(rt, alloc, tables, entry, workers, gate) },
    )
}
