//! Where the sections of the items that are compared stand among these.

ghost use Rattle.std.specs.Prelude.{◌≡◌, ℕ, ◌-◌, ◌<◌, ◌^◌, length, slice_index, IfOk};
ghost use Rattle.std.specs.List.Sorted.{IsStrictlyIncreasing};
ghost use Rattle.icf_part.specs.PlaceTables.{IsPlaceTable, place_in_table};
ghost use Rattle.icf_part.specs.Signatures as spec;

use lk_base::SecNo;
use std::alloc::{AllocError, Global};
use std::marker::Model;

/// Sections in order of number, and where each of them stands. A clause sees the list of the sections.
#[derive(Drop)]
pub struct Places {
    sections: Vec<SecNo>,
    /// By section number the place of each of them and one more, and 0 of others.
    table: Vec<u32>,
}

impl Model for Places {
    ghost use Rattle.std.specs.Prelude.{ℕ, List, length};
    ghost use Rattle.icf_part.specs.PlaceTables.{IsPlaceTable};

    ghost Value = { List ℕ };

    ghost view = { λ p. p.sections.items };

    ghost invariant = { λ p. IsPlaceTable (length p.table.items) p.sections.items (length p.sections.items) p.table.items };
}

impl Places {
    /// Of sections in order of number. The only error is out of memory.
    pub fn of(alloc: Global, sections: Vec<SecNo>) -> Result<Places, AllocError>
        requires order { IsStrictlyIncreasing sections.items }
        requires few { length sections.items < 2 ^ 31 }
        ensures { IfOk result (λ places. places ≡ sections.items) }
    {
        let width = width_of(sections.as_slice());
        let table = table_of(alloc, sections.as_slice(), width)?;
        Ok(Places { sections, table })
    }

    /// The place of a section, if it is one of these.
    pub fn place_of(&self, section: SecNo) -> Option<u32>
        requires { IsStrictlyIncreasing self.now }
        ensures { result ≡ spec.place_of self.now section }
    {
        place_of_entry(number_at(self.table.as_slice(), section as usize))
    }
}

/// By section number the place of each of some sections and one more, and 0 of others.
fn table_of(alloc: Global, sections: &[SecNo], width: usize) -> Result<Vec<u32>, AllocError>
    requires order { IsStrictlyIncreasing sections.now }
    requires few { length sections.now < 2 ^ 31 }
    requires within { (k : ℕ) → k < length sections.now → slice_index sections.now k < width }
    ensures { IfOk result (λ table. IsPlaceTable width sections.now (length sections.now) table.items) }
{
    let mut table = vec![in alloc; 0u32; width]?;
    for k in 0..sections.len() {
        table[sections[k] as usize] = k as u32 + 1;
    }
    Ok(table)
}

/// One more than the greatest of some numbers in order.
fn width_of(sections: &[SecNo]) -> usize
    requires { IsStrictlyIncreasing sections.now }
    ensures { (k : ℕ) → k < length sections.now → slice_index sections.now k < result }
{
    last_of(sections) as usize + 1
}

/// The last of some numbers, 0 of none.
fn last_of(numbers: &[u32]) -> u32
    ensures { result ≡ slice_index numbers.now (length numbers.now - 1) }
{
    number_at(numbers, numbers.len().saturating_sub(1))
}

/// The number at a place, 0 past the last.
fn number_at(numbers: &[u32], place: usize) -> u32
    ensures { result ≡ slice_index numbers.now place }
{
    match numbers.get(place) {
        Some(number) => *number,
        None => 0,
    }
}

/// The place that a number of a table stands for: none for 0, else one less than the number.
#[tactic(auto, unfolding(crate::specs::PlaceTables::place_in_table))]
fn place_of_entry(number: u32) -> Option<u32>
    ensures { result ≡ place_in_table number }
{
    if number == 0 {
        return None;
    }
    Some(number - 1)
}
