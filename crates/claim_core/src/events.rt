//! Events on a row of words.

ghost use Rattle.std.specs.Prelude.{◌≡◌, ◌<◌, ◌↔◌, length, IsTrue, Contains};
ghost use Rattle.claim_core.specs.Events.{event, lowered, after, AllInRow, IsReached};
ghost use Rattle.claim_core.specs.Events.{EachIsOffered, EndsAtLeast};

/// A word that nothing has claimed: the greatest number, so that a claim of any rank lowers it or leaves it.
pub const NONE: u64 = u64::MAX;

/// A claim on a word, by its place in the row, with a rank. The lesser rank is the stronger claim.
#[derive(Clone, Copy, PartialEq, Eq, Debug)]
pub struct Event {
    pub word: u32,
    pub rank: u64,
}

/// One event. The other words stay.
pub fn step(words: &mut [u64], event: Event)
    requires { event.word < length words.old }
    ensures { words.new ≡ lowered words.old event }
{
    let word = &mut words[event.word as usize];
    if event.rank < *word {
        *word = event.rank;
    }
}

/// The events in turn. From words that are all `NONE` the order of the events does not matter, nor does an event that
/// comes again.
pub fn run(words: &mut [u64], events: &[Event])
    requires { AllInRow (length words.old) events.now }
    ensures after { words.new ≡ after words.old events.now }
    ensures least { EndsAtLeast words.old events.now words.new }
{
    for event in events {
        step(words, *event);
    }
}

/// Whether events of the offers can have led to these words from all `NONE`, in some order and number. It looks at
/// each offer for each word, and is for tests.
pub fn is_reached(offers: &[Event], words: &[u64]) -> bool
    ensures reached { IsTrue result ↔ IsReached offers.now words.now }
    ensures exactly { IsReached offers.now words.now ↔ EachIsOffered offers.now words.now }
{
    for (word, rank) in words.iter().enumerate() {
        if *rank != NONE && !is_on_offer(offers, word, *rank) {
            return false;
        }
    }
    true
}

fn is_on_offer(offers: &[Event], word: usize, rank: u64) -> bool
    ensures { IsTrue result ↔ Contains offers.now (event word rank) }
{
    for offer in offers {
        if offer.word as usize == word && offer.rank == rank {
            return true;
        }
    }
    false
}

#[cfg(test)]
mod tests {
    use super::*;

    const COMMON: Event = Event {
        word: 0,
        rank: 72057594037927939,
    };

    const WEAK: Event = Event {
        word: 0,
        rank: 144115192370823170,
    };

    #[test]
    fn the_lesser_rank_stays_in_either_order(rt: HostRuntime) {
        let mut words = [NONE, NONE];
        run(&mut words, &[COMMON, WEAK, WEAK]);
        assert!(rt; words == [72057594037927939, NONE]);
        let mut words = [NONE, NONE];
        run(&mut words, &[WEAK, COMMON]);
        assert!(rt; words == [72057594037927939, NONE]);
    }

    #[test]
    fn words_are_reached_where_each_is_on_offer(rt: HostRuntime) {
        let offers = [COMMON, WEAK];
        assert!(rt; is_reached(&offers, &[NONE, NONE]));
        assert!(rt; is_reached(&offers, &[144115192370823170]));
        assert!(rt; !is_reached(&offers, &[5]));
        assert!(rt; !is_reached(&offers, &[NONE, 72057594037927939]));
    }
}
