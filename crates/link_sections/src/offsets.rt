//! Where the bytes of a section stand once others are gone.

ghost use Rattle.std.specs.Prelude.{◌≡◌, ◌+◌, ◌-◌, ◌<◌, ◌≤◌, min, slice_index_or, []};
ghost use Rattle.link_sections.specs.Cuts.{new_offset};
ghost use Rattle.link_sections.specs.CutsView.{AreCuts, cut_views};
ghost use Rattle.link_sections.specs.SizesView.{cut_rows};

use crate::cuts::Cut;
use crate::sizes::Sizes;
use lk_base::SecNo;

/// The offset at which a byte of a section stands once the bytes before it that do not stay are gone. Takes no memory.
pub fn new_offset(sizes: &Sizes, section: SecNo, old: u64) -> u64
    ensures value { result ≡ new_offset (cut_views (slice_index_or (cut_rows sizes.now) section [])) old }
    ensures most { result ≤ old }
{
    offset_by(sizes.cuts(section), old)
}

/// The offset at which a byte of a section with these cuts stands once the bytes before it that do not stay are gone.
fn offset_by(cuts: &[Cut], old: u64) -> u64
    requires { AreCuts cuts.now }
    ensures value { result ≡ new_offset (cut_views cuts.now) old }
    ensures most { result ≤ old }
{
    let n = cuts.partition_point(|cut| cut.at < old);
    if n == 0 {
        return old;
    }
    after_cut(&cuts[n - 1], old)
}

/// The new offset of a byte after the start of a cut, if no later cut starts before it.
fn after_cut(cut: &Cut, old: u64) -> u64
    requires after { cut.now.at < old }
    requires kept { cut.now.kept ≤ cut.now.whole }
    requires low { cut.now.new_at ≤ cut.now.at }
    ensures value { result ≡ cut.now.new_at + min (old - cut.now.at) cut.now.kept + (old - cut.now.at - min (old - cut.now.at) cut.now.whole) }
    ensures most { result ≤ old }
{
    let past = old - cut.at;
    cut.new_at + past.min(cut.kept) + (past - past.min(cut.whole))
}
