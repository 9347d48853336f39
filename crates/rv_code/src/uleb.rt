//! A value put into a ULEB128 number (DWARF, "Variable Length Data"; RISC-V ELF psABI, `R_RISCV_SET_ULEB128` and
//! `R_RISCV_SUB_ULEB128`).

ghost use Rattle.std.specs.Prelude.{◌≡◌, ◌*◌, pos, min, length, MatchResult, None, Some};
ghost use Rattle.lk_base.specs.Reaches.{Refuses, Takes, misfit_of};
ghost use Rattle.rv_code.specs.Uleb.{uleb_bits, uleb_filled, uleb_number, uleb_patched, uleb_reach};

use lk_base::Misfit;

/// How many bits of a value a number of `n` bytes takes.
fn uleb_width(n: u32) -> u32
    ensures { result ≡ min (7 * n) 64 }
{
    if n < 10 { 7 * n } else { 64 }
}

/// Whether a ULEB128 number of `n` bytes holds the value: `Range` if it is negative, or has more than seven bits a byte, or
/// more than 64.
pub fn fits_uleb(n: u32, v: i128) -> Result<(), Misfit>
    ensures value { MatchResult result (λ _. Takes (uleb_reach n) v) (λ misfit. Refuses (uleb_reach n) v misfit) }
    ensures exact { MatchResult result (λ _. misfit_of (uleb_reach n) v ≡ None) (λ misfit. misfit_of (uleb_reach n) v ≡ Some misfit) }
{
    let end = 1i128 << uleb_width(n);
    if 0 <= v && v < end {
        return Ok(());
    }
    Err(Misfit::Range)
}

/// The bits of a value that a place has room for.
#[tactic(auto, unfolding(crate::specs::Uleb::uleb_bits))]
fn bits_for_ten(v: i128) -> u128
    ensures { result ≡ uleb_bits v }
{
    v.rem_euclid(1 << 70) as u128
}

/// Puts a value into a ULEB128 number, which the value fits. Each byte keeps its bit 7, so the number is as long as it was, and it is read as
/// the value.
pub fn patch_uleb(place: &mut [u8], v: i128)
    requires { Takes (uleb_reach (length place.old)) v }
    ensures value { place.new ≡ uleb_patched v place.old }
    ensures reads_back { pos (uleb_number place.new) ≡ v }
{
    patch_uleb_bits(place, v);
}

/// Puts a value into a ULEB128 number, and of one that it does not take the bits for which it has room. Each byte keeps its bit 7.
pub fn patch_uleb_bits(place: &mut [u8], v: i128)
    ensures { place.new ≡ uleb_patched v place.old }
{
    fill(place, bits_for_ten(v));
}

/// Puts bits into a ULEB128 number, the low seven into the first byte.
fn fill(place: &mut [u8], bits: u128)
    ensures { place.new ≡ uleb_filled bits place.old }
{
    let mut left = bits;
    for i in 0..place.len() {
        place[i] = place[i] / 128 * 128 + (left % 128) as u8;
        left /= 128;
    }
}
