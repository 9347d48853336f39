//! Names that are defined twice.

ghost use Rattle.std.specs.Prelude.{◌≡◌};
ghost use Rattle.sym_resolve.specs.StrongPairs.{no_clash, least_clash, lesser_clash, defect_of};

use crate::ranks::rank_at;
use lk_base::Defect;
use lk_base::kinds::DUPLICATE;
use lk_tables::{NO_RANK, class_of_rank, file_of, symbol_of};
use rank_claims::Offer;

/// The class of strong offers.
const STRONG: u64 = 0;

/// Two strong offers of one name, by rank; `NO_RANK` twice is none.
#[derive(Clone, Copy)]
pub struct Clash {
    /// The first offer of the name.
    pub first: u64,
    /// The next one after it.
    pub next: u64,
}

const NO_CLASH: Clash = Clash {
    first: NO_RANK,
    next: NO_RANK,
};

/// The first name that is defined twice, by the least rank of each word.
pub fn duplicate(least: &[u64], offers: &[Offer]) -> Option<Defect>
    ensures { result ≡ defect_of (least_clash least.now no_clash offers.now) }
{
    let clash = least_clash(least, offers);
    if clash.first == NO_RANK {
        return None;
    }
    Some(Defect {
        kind: DUPLICATE,
        file: file_of(clash.first),
        section: 0,
        place: symbol_of(clash.first) as u64,
        symbol: symbol_of(clash.first),
        other: file_of(clash.next) as u64,
    })
}

// The clash of which the first offer is least, with the offer next to it.
fn least_clash(least: &[u64], offers: &[Offer]) -> Clash
    ensures { result ≡ least_clash least.now no_clash offers.now }
{
    let mut best = NO_CLASH;
    for offer in offers {
        best = lesser_clash(least, best, *offer);
    }
    best
}

// A strong offer that is not the least of its word clashes with the least.
fn lesser_clash(least: &[u64], best: Clash, offer: Offer) -> Clash
    ensures { result ≡ lesser_clash least.now best offer }
{
    let first = rank_at(least, offer.word);
    if first < offer.rank && class_of_rank(offer.rank) == STRONG && first < best.first {
        return Clash {
            first,
            next: offer.rank,
        };
    }
    best
}
