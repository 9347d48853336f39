//! Where each member stands, by what it is.

ghost use Rattle.std.specs.Prelude.{◌≡◌, ℕ, ◌+◌, ◌*◌, ◌<◌, ◌≤◌, ◌^◌, [], All, length, slice_index_or, IfOk, OnOk};
ghost use Rattle.lk_base.specs.declared.abi.TheConstants.{NOBITS_MAX};
ghost use Rattle.link_sections.specs.declared.members.Content.TheVariants.{Section, Pool as IsPool};
ghost use Rattle.link_sections.specs.SizesView.{sizes_of};
ghost use Rattle.layout.specs.Walk as spec;

use crate::cutting::{has_alignment, lay_cuts};
use link_sections::{Content, Cut, Member, Sizes, new_offset};
use output_sections::Row;
use std::alloc::{AllocError, Global};

/// The first addresses of the members of a link.
#[derive(Debug, Drop)]
pub struct Places {
    /// The addresses of sections, by section number.
    pub starts: Vec<u64>,
    /// The addresses of pools.
    pub pools: Vec<u64>,
    /// The address of the linker's global offset table.
    pub got: u64,
    /// The cuts of the section that was placed last; they stand here for their room alone.
    pub cuts: Vec<Cut>,
}

/// Notes where a member stands.
#[tactic(auto, unfolding(crate::specs::Walk::stands_view))]
pub fn put(places: &mut Places, content: Content, start: u64)
    requires section { (n : ℕ) → content ≡ Section n → n < length places.old.starts.items }
    requires pool { (p : ℕ) → content ≡ IsPool p → p < length places.old.pools.items }
    ensures stands { spec.stands_view places.new ≡ spec.put content start (spec.stands_view places.old) }
    ensures sections { length places.new.starts.items ≡ length places.old.starts.items }
    ensures pools { length places.new.pools.items ≡ length places.old.pools.items }
{
    match content {
        Content::Section(n) => places.starts[n as usize] = start,
        Content::Pool(p) => places.pools[p as usize] = start,
        Content::Got => places.got = start,
    }
}

/// A member that starts at an address, once it is noted where it stands.
pub fn place_row(
    alloc: Global,
    sizes: &Sizes,
    row: &Row,
    start: u64,
    places: &mut Places,
) -> Result<Member, AllocError>
    requires ready { spec.IsReady (sizes_of sizes.now) (length places.old.starts.items) (length places.old.pools.items) row.now }
    requires room { start < 2 ^ 63 }
    ensures member { IfOk result (λ member. member ≡ spec.member_at (sizes_of sizes.now) start row.now) }
    ensures stands { OnOk result (spec.stands_view places.new ≡ spec.put row.now.content start (spec.stands_view places.old)) }
    ensures most { IfOk result (λ member. member.size ≤ 3 * row.now.size) }
    ensures sections { OnOk result (length places.new.starts.items ≡ length places.old.starts.items) }
    ensures pools { OnOk result (length places.new.pools.items ≡ length places.old.pools.items) }
{
    let size = size_at(alloc, sizes, row, start, &mut places.cuts)?;
    put(places, row.content, start);
    Ok(Member {
        content: row.content,
        start,
        size,
    })
}

/// The bytes that a member has if it starts at an address.
fn size_at(
    alloc: Global,
    sizes: &Sizes,
    row: &Row,
    start: u64,
    cuts: &mut Vec<Cut>,
) -> Result<u64, AllocError>
    requires small { (n : ℕ) → row.now.content ≡ Section n → row.now.size ≤ NOBITS_MAX }
    requires cuts { (n : ℕ) → row.now.content ≡ Section n → All (λ c. c.at + c.whole ≤ row.now.size) (slice_index_or (sizes_of sizes.now) n []) }
    requires room { start < 2 ^ 63 }
    ensures size { IfOk result (λ size. size ≡ spec.size_at (sizes_of sizes.now) start row.now) }
    ensures most { IfOk result (λ size. size ≤ 3 * row.now.size) }
{
    let Content::Section(section) = row.content else {
        return Ok(row.size);
    };
    let own = sizes.cuts(section);
    if own.len() == 0 {
        return Ok(row.size);
    }
    if !has_alignment(own) {
        return Ok(new_offset(sizes, section, row.size));
    }
    let size = lay_cuts(alloc, start, row.size, own, cuts)?;
    Ok(size)
}
