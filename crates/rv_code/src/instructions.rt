//! Whole instructions: jumps and nops.

ghost use Rattle.std.specs.Prelude.{◌≡◌, ◌<◌, ◌%◌, length, slice_index, EachIndex};
ghost use Rattle.lk_base.specs.Reaches.{Takes};
ghost use Rattle.lk_base.specs.RelocKinds.{kind_of};
ghost use Rattle.rv_code.specs.Instructions.{AreNops, IsJal, IsShortJump, nop_byte};

use crate::places::patch;
use lk_base::abi::{R_RISCV_JAL, R_RISCV_RVC_JUMP};

/// `jal`: a jump by an offset in bytes, even, from -1048576 to 1048574, which leaves the address of the next instruction in the register
/// `rd`, below 32.
#[tactic(auto, unfolding(lk_base::specs::RelocKinds::kind_of, lk_base::specs::RelocKinds::fills_field, lk_base::specs::RelocKinds::has_value, lk_base::specs::RelocKinds::is_uleb))]
pub fn jal(rd: u32, offset: i64) -> u32
    requires register { rd < 32 }
    requires fits { Takes (kind_of R_RISCV_JAL).reach offset }
    ensures { IsJal rd offset result }
{
    let mut bytes = (0x6f + (rd << 7)).to_le_bytes();
    patch(R_RISCV_JAL, &mut bytes, i128::from(offset));
    u32::from_le_bytes(bytes)
}

/// `c.j`: a jump by an offset in bytes, even, from -2048 to 2046, in two bytes.
#[tactic(auto, unfolding(lk_base::specs::RelocKinds::kind_of, lk_base::specs::RelocKinds::fills_field, lk_base::specs::RelocKinds::has_value, lk_base::specs::RelocKinds::is_uleb))]
pub fn cj(offset: i64) -> u16
    requires { Takes (kind_of R_RISCV_RVC_JUMP).reach offset }
    ensures { IsShortJump offset result }
{
    let mut bytes = 0xa001u16.to_le_bytes();
    patch(R_RISCV_RVC_JUMP, &mut bytes, i128::from(offset));
    u16::from_le_bytes(bytes)
}

fn nop_byte(len: usize, i: usize) -> u8
    requires { i < len }
    ensures { result ≡ nop_byte len i }
{
    if i % 4 != 0 {
        return 0;
    }
    if len - i >= 4 { 0x13 } else { 0x01 }
}

/// Fills a stretch of code with nops: those of four bytes, and one of two if two bytes are left. Each byte is the one that its place has in them, and
/// each word, read again by its fields, is a nop.
pub fn nops(place: &mut [u8])
    requires { length place.old % 2 ≡ 0 }
    ensures bytes { EachIndex place.new (λ i. slice_index place.new i ≡ nop_byte (length place.old) i) }
    ensures nops { AreNops place.new }
{
    let len = place.len();
    for (i, byte) in place.iter_mut().enumerate() {
        *byte = nop_byte(len, i);
    }
}
