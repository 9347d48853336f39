//! The hash of a text.

ghost use Rattle.std.specs.Prelude.{◌≡◌};
ghost use Rattle.intern_race.specs.Hash as spec;

/// The text's FNV-1a hash of 64 bits, which decides where the search for it begins.
#[tactic(auto, unfolding(crate::specs::Hash::hash_of))]
pub fn hash_of(text: &[u8]) -> u64
    ensures { result ≡ spec.hash_of text.now }
{
    let mut hash: u64 = 0xcbf2_9ce4_8422_2325;
    for byte in text {
        hash = (hash ^ *byte as u64).wrapping_mul(0x100_0000_01b3);
    }
    hash
}

/// The tag of the texts that have this hash: its eight highest bits, by which most texts are told apart that are searched for from one slot on.
#[tactic(auto, unfolding(crate::specs::Hash::tag_of))]
pub fn tag_of(hash: u64) -> u8
    ensures { result ≡ spec.tag_of hash }
{
    (hash / 0x0100_0000_0000_0000) as u8
}
