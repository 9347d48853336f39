//! Rows of numbers as bytes.

ghost use Rattle.std.specs.Prelude.{◌≡◌, ◌++◌, ◌∷◌, [], OnOk};
ghost use Rattle.icf_part.specs.Signatures.{AllFit, row_bytes, word_bytes};
ghost use Rattle.icf_part.specs.Signatures as spec;

use flat_rows::Rows;
use std::alloc::AllocError;

/// Adds a row of numbers. Its bytes are made in `bytes`, whatever stands there, which so takes memory once for many rows.
pub fn push_row(rows: &mut Rows<u8>, bytes: &mut Vec<u8>, words: &[u64]) -> Result<(), AllocError>
    ensures row { OnOk result (rows.new ≡ rows.old ++ row_bytes words.now ∷ []) }
    ensures fit { AllFit words.now }
{
    bytes.clear();
    push_words(bytes, words)?;
    rows.push(bytes.as_slice())
}

/// Adds numbers as bytes.
#[tactic(auto, unfolding(crate::specs::Signatures::row_bytes))]
fn push_words(bytes: &mut Vec<u8>, words: &[u64]) -> Result<(), AllocError>
    ensures { OnOk result (bytes.new.items ≡ bytes.old.items ++ row_bytes words.now) }
{
    for i in 0..words.len() {
        push_word(bytes, words[i])?;
    }
    Ok(())
}

/// Adds a number: one byte if it is below 254, else four or eight, the lowest one first, after a byte that says so.
#[tactic(auto, unfolding(crate::specs::Signatures::word_bytes))]
fn push_word(bytes: &mut Vec<u8>, word: u64) -> Result<(), AllocError>
    ensures { OnOk result (bytes.new.items ≡ bytes.old.items ++ word_bytes word) }
{
    if word < 254 {
        bytes.push(word as u8)?;
        return Ok(());
    }
    if word < 0x1_0000_0000 {
        bytes.push(254)?;
        return bytes.extend_from_slice(&(word as u32).to_le_bytes());
    }
    bytes.push(255)?;
    bytes.extend_from_slice(&word.to_le_bytes())
}

/// A number with its sign.
pub fn signed_words(number: i64) -> [u64; 2]
    ensures { result ≡ spec.signed_words number }
{
    if number < 0 {
        return [1, (-(number + 1)) as u64];
    }
    [0, number as u64]
}
