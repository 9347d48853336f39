//! A binding, put together from its parts.

ghost use Rattle.std.specs.Prelude.{◌≡◌, map};
ghost use Rattle.std.specs.List.{All};
ghost use Rattle.std.specs.List.Sorted.{IsNonDecreasingBy};
ghost use Rattle.lk_tables.specs.declared.commons.BoundCommon.{BoundCommon};
ghost use Rattle.lk_tables.specs.BindingView.{binding_view, with_entry, with_rank};
ghost use Rattle.lk_tables.specs.InputSections.{common_of};
ghost use Rattle.lk_tables.specs.Targets.{commons_at};

use crate::binding::Binding;
use crate::commons::BoundCommon;

impl Binding {
    /// A binding of these parts: `discarded` by the sections' numbers, `ranks` by the symbols' numbers, the rank of the entry, and for
    /// each file its COMMON symbols that get room.
    pub fn of(
        discarded: Vec<bool>,
        ranks: Vec<u64>,
        entry: u64,
        commons: Vec<Vec<BoundCommon>>,
    ) -> Binding
        requires ordered { All (IsNonDecreasingBy (λ (c : BoundCommon). c.symbol)) (map (λ list. list.items) commons.items) }
        requires numbered { All (IsNonDecreasingBy (λ (c : BoundCommon). c.section)) (map (λ list. list.items) commons.items) }
        ensures { binding_view result ≡ record { discarded = discarded.items; ranks = ranks.items; entry = entry; commons = map (λ list. list.items) commons.items } }
    {
        Binding {
            discarded,
            ranks,
            entry,
            commons,
        }
    }

    /// The rank that the entry's name is bound to.
    pub fn entry_rank(&self) -> u64
        ensures { result ≡ (binding_view self.now).entry }
    {
        self.entry
    }

    /// Binds the entry's name to a rank.
    pub fn set_entry_rank(&mut self, rank: u64)
        ensures { binding_view self.new ≡ with_entry (binding_view self.old) rank }
    {
        self.entry = rank;
    }

    /// Binds the name of a symbol of a number to a rank. There is nothing to bind past the last number.
    pub fn set_rank(&mut self, symbol: usize, rank: u64)
        ensures { binding_view self.new ≡ with_rank (binding_view self.old) symbol rank }
    {
        if symbol < self.ranks.len() {
            self.ranks[symbol] = rank;
        }
    }

    /// The COMMON symbol of a file whose room has a section number.
    pub fn room(&self, file: usize, section: usize) -> Option<BoundCommon>
        ensures { result ≡ common_of (commons_at (binding_view self.now).commons file) section }
    {
        room_of(self.commons(file), section)
    }
}

// The COMMON symbol whose room has a section number, of symbols in order of these.
fn room_of(commons: &[BoundCommon], section: usize) -> Option<BoundCommon>
    requires { IsNonDecreasingBy (λ (c : BoundCommon). c.section) commons.now }
    ensures { result ≡ common_of commons.now section }
{
    let n = commons.partition_point(|common| (common.section as usize) < section);
    let Some(common) = commons.get(n) else {
        return None;
    };
    if common.section as usize != section {
        return None;
    }
    Some(*common)
}
