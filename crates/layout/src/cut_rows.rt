//! Where all sections lose bytes, once they have their places.

ghost use Rattle.std.specs.Prelude.{◌≡◌, ℕ, ◌+◌, ◌<◌, ◌≤◌, ◌^◌, ◌++◌, ◌∷◌, [], true, All, length, map, slice_index_or, IfOk, OnOk};
ghost use Rattle.lk_base.specs.declared.abi.TheConstants.{NOBITS_MAX};
ghost use Rattle.lk_base.specs.Firsts.{Goes};
ghost use Rattle.lk_tables.specs.Files.{section_total};
ghost use Rattle.lk_tables.specs.Sites.{place_of};
ghost use Rattle.lk_tables.specs.TablesView.{files_of};
ghost use Rattle.link_sections.specs.CutsView.{AreCuts, cut_views};
ghost use Rattle.link_sections.specs.Leaders as spec;
ghost use Rattle.link_sections.specs.SizesView.{sizes_of};
ghost use Rattle.layout.specs.Cutting.{short_defects};
ghost use Rattle.layout.specs.Layout.{all_cuts, cut_defects, cuts_of};

use crate::cutting::{check_cuts, has_alignment, lay_cuts};
use flat_rows::Rows;
use link_sections::{Cut, Sizes, leads};
use lk_base::abi::NOBITS_MAX;
use lk_base::{LinkStop, SecNo};
use lk_tables::Tables;
use std::alloc::Global;

/// By section number the cuts of each section that is its own leader, once the sections stand at `starts`; none of the others. Refuses an
/// alignment that needs more bytes than it has, or half a nop: the first, in order of section and offset.
pub fn lay_rows(
    alloc: Global,
    tables: &Tables,
    leaders: &[Option<SecNo>],
    sizes: &Sizes,
    starts: &[u64],
) -> Result<Rows<Cut>, LinkStop>
    requires count { length starts.now ≡ section_total (files_of tables.now) }
    requires within { (n : ℕ) → spec.leads leaders.now n ≡ true → All (λ c. c.at + c.whole ≤ NOBITS_MAX) (slice_index_or (sizes_of sizes.now) n []) }
    requires room { All (λ start. start < 2 ^ 63) starts.now }
    ensures goes { Goes result (cut_defects (files_of tables.now) (all_cuts leaders.now (sizes_of sizes.now) starts.now (section_total (files_of tables.now))) (section_total (files_of tables.now))) }
    ensures rows { IfOk result (λ rows. map cut_views rows ≡ all_cuts leaders.now (sizes_of sizes.now) starts.now (section_total (files_of tables.now))) }
    ensures sound { IfOk result (λ rows. All AreCuts rows) }
{
    tables.prove_few();
    let mut rows = Rows::empty(alloc)?;
    rows.reserve(room_of(sizes, tables.section_count() as u32))?;
    let mut laid = Vec::new(alloc);
    for n in 0..tables.section_count() {
        lay_row(
            alloc, tables, leaders, sizes, starts, n as u32, &mut laid, &mut rows,
        )?;
    }
    Ok(rows)
}

/// How many cuts there are at most, so that room is made for them at once.
fn room_of(sizes: &Sizes, sections: u32) -> usize {
    let mut room: usize = 0;
    if sizes.is_empty() {
        return room;
    }
    for n in 0..sections {
        room = room.saturating_add(sizes.cuts(n).len());
    }
    room
}

/// The cuts of one section, after the rows before it. Those of a section without alignments stay as they are, so they are not laid anew.
#[tactic(auto, unfolding(crate::specs::Layout::cuts_of))]
fn lay_row(
    alloc: Global,
    tables: &Tables,
    leaders: &[Option<SecNo>],
    sizes: &Sizes,
    starts: &[u64],
    section: SecNo,
    laid: &mut Vec<Cut>,
    rows: &mut Rows<Cut>,
) -> Result<(), LinkStop>
    requires number { section < section_total (files_of tables.now) }
    requires count { length starts.now ≡ section_total (files_of tables.now) }
    requires within { spec.leads leaders.now section ≡ true → All (λ c. c.at + c.whole ≤ NOBITS_MAX) (slice_index_or (sizes_of sizes.now) section []) }
    requires room { All (λ start. start < 2 ^ 63) starts.now }
    ensures goes { Goes result (short_defects (place_of (files_of tables.now) section) (cuts_of leaders.now (sizes_of sizes.now) starts.now section)) }
    ensures views { OnOk result (map cut_views rows.new ≡ map cut_views rows.old ++ cuts_of leaders.now (sizes_of sizes.now) starts.now section ∷ []) }
    ensures sound { OnOk result (All AreCuts rows.old → All AreCuts rows.new) }
{
    if !leads(leaders, section as usize) {
        rows.push(&[])?;
        return Ok(());
    }
    let own = sizes.cuts(section);
    if !has_alignment(own) {
        rows.push(own)?;
        return Ok(());
    }
    lay_cuts(alloc, starts[section as usize], NOBITS_MAX, own, laid)?;
    match check_cuts(tables.place_of(section), laid) {
        Ok(()) => {
            rows.push(laid)?;
            Ok(())
        }
        Err(defect) => Err(LinkStop::Defect(defect)),
    }
}
