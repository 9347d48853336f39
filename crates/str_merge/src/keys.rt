//! What sections of one pool have in common.

ghost use Rattle.std.specs.Prelude.{◌≡◌, ◌<◌, ◌^◌, All, length, map, unwrap_or, IfOk, Some, if◌then◌else◌};
ghost use Rattle.lk_tables.specs.FileView.{file_view};
ghost use Rattle.lk_tables.specs.TablesView.{files_of};
ghost use Rattle.link_sections.specs.MergeSections as spec;
ghost use Rattle.link_sections.specs.Merging.{site_key};
ghost use Rattle.indexmap.specs.IndexMap.{get};
ghost use Rattle.str_merge.specs.Keys.{eq_keys, key_numbers, key_view, key_views};
ghost use Rattle.str_merge.specs.Sites.{site_views};

use crate::sites::Site;
use indexmap::IndexMap;
use lk_base::abi::SHF_GROUP;
use lk_tables::{File, Tables, output_name, text_of};
use std::alloc::{AllocError, Global};

/// What sections of one pool have in common: the name of their output section, their flags but for GROUP, the size of their elements and
/// their alignment.
pub type PoolKey<'a> = (&'a [u8], u64, u64, u64);

/// The key of a section's pool.
#[tactic(auto, unfolding(link_sections::specs::MergeSections::pool_key))]
pub fn pool_key<'a>(file: &File<'a>, index: usize) -> PoolKey<'a>
    ensures { key_view result ≡ spec.pool_key (file_view file.now) index }
{
    let section = file.section(index);
    let name = output_name(text_of(file.bytes(), &section.name));
    (
        name,
        section.flags - (section.flags & SHF_GROUP),
        section.entsize,
        section.align.max(1),
    )
}

/// The keys of the pools of these sections.
pub fn keys_of<'a>(
    alloc: Global,
    tables: &Tables<'a>,
    sites: &[Site],
) -> Result<Vec<PoolKey<'a>>, AllocError>
    requires files { All (λ (s : _). s.file < length (files_of tables.now)) sites.now }
    ensures { IfOk result (λ keys. key_views keys.items ≡ map (site_key (files_of tables.now)) (site_views sites.now)) }
{
    let mut keys = Vec::with_capacity(alloc, sites.len())?;
    for i in 0..sites.len() {
        let site = &sites[i];
        keys.push(pool_key(tables.file(site.file), site.index as usize))?;
    }
    Ok(keys)
}

/// For each key the index of the first that is equal to it.
#[tactic(auto, unfolding(crate::specs::Keys::key_numbers))]
pub fn number_keys(alloc: Global, keys: &[PoolKey]) -> Result<Vec<u32>, AllocError>
    requires { length keys.now < 2 ^ 31 }
    ensures { IfOk result (λ numbers. numbers.items ≡ key_numbers keys.now) }
{
    let mut known: IndexMap<PoolKey, u32> = IndexMap::new(alloc);
    let mut numbers = Vec::with_capacity(alloc, keys.len())?;
    for i in 0..keys.len() {
        let number = note_key(&mut known, &keys[i], i as u32)?;
        numbers.push(number)?;
    }
    Ok(numbers)
}

/// The number that is noted for a key; `number` is noted for a new one.
fn note_key<'a>(
    known: &mut IndexMap<PoolKey<'a>, u32>,
    key: &PoolKey<'a>,
    number: u32,
) -> Result<u32, AllocError>
    ensures value { IfOk result (λ first. first ≡ unwrap_or (get eq_keys known.old key.now) number) }
    ensures notes { IfOk result (λ first. (q : _) → get eq_keys known.new q ≡ (if eq_keys key.now q then Some first else get eq_keys known.old q)) }
{
    let Some(first) = known.get(key) else {
        known.insert(*key, number)?;
        return Ok(number);
    };
    Ok(*first)
}
