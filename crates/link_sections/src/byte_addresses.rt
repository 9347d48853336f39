//! The addresses of offsets of sections and of pieces of pools.

ghost use Rattle.std.specs.Prelude.{◌≡◌, ◌^◌, ◌≤ℤ◌, pos};
ghost use Rattle.link_sections.specs.Addresses as spec;
ghost use Rattle.link_sections.specs.LaidOut as laid;
ghost use Rattle.link_sections.specs.Links.{link_laid, link_leaders};
ghost use Rattle.link_sections.specs.PoolViews.{piece_rows, pool_list};
ghost use Rattle.link_sections.specs.Positions.{position_at};

use crate::links::LaidLink;
use crate::numbers::{leader_of, number_at, offset_in, start_of};
use crate::pools::Pools;
use lk_base::SecNo;

/// The address of an offset of a section that is written as it is.
#[tactic(auto, unfolding(crate::specs::LaidOut::address_in, crate::specs::LaidOut::with_contents))]
pub fn in_section(link: &LaidLink, section: SecNo, offset: u64) -> i128
    ensures value { result ≡ pos (laid.address_in (link_leaders link.now) (link_laid link.now) section offset) }
    ensures low { pos 0 ≤ℤ result }
    ensures high { result ≤ℤ pos (2 ^ 65) }
{
    let leader = leader_of(link.leaders, section);
    start_of(link.layout, leader) as i128 + offset_in(link.layout, leader, offset) as i128
}

/// The address of an offset of a piece of a pool.
pub fn in_piece(link: &LaidLink, pool: u32, piece: u32, offset: u64) -> i128
    ensures value { result ≡ pos (spec.piece_address (link_laid link.now) pool piece offset) }
    ensures low { pos 0 ≤ℤ result }
    ensures high { result ≤ℤ pos (2 ^ 66) }
{
    let start = number_at(link.layout.pools.as_slice(), pool as usize);
    start as i128 + position_of(link.pools, pool, piece) as i128 + offset as i128
}

/// The first byte of a piece, in bytes from the start of its pool; 0 if there is no such piece.
fn position_of(pools: &Pools, pool: u32, piece: u32) -> u64
    ensures { result ≡ position_at (pool_list pools.now) (piece_rows pools.now) pool piece }
{
    if pools.pools().len() <= pool as usize {
        return 0;
    }
    match pools.pieces(pool).get(piece as usize) {
        Some(piece) => piece.position,
        None => 0,
    }
}
