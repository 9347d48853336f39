//! Numbers of 2, 4 and 8 bytes in a file, the lowest byte first (System V gABI, "Data Encoding",
//! ELFDATA2LSB).

ghost use Rattle.std.specs.Prelude.{◌≡◌, ◌+◌, ◌≤◌, length};
ghost use Rattle.lk_tables.specs.Numbers as read;

use byteorder::{ByteOrder, LittleEndian};

/// The number in the 2 bytes at the file offset `at` (`Elf64_Half`).
#[tactic(auto, unfolding(crate::specs::Numbers::half_at))]
pub fn half_at(bytes: &[u8], at: usize) -> u16
    requires { at + 2 ≤ length bytes.now }
    ensures { result ≡ read.half_at bytes.now at }
{
    let (_, rest) = bytes.split_at(at);
    LittleEndian::read_u16(rest)
}

/// The number in the 4 bytes at the file offset `at` (`Elf64_Word`).
#[tactic(auto, unfolding(crate::specs::Numbers::word_at))]
pub fn word_at(bytes: &[u8], at: usize) -> u32
    requires { at + 4 ≤ length bytes.now }
    ensures { result ≡ read.word_at bytes.now at }
{
    let (_, rest) = bytes.split_at(at);
    LittleEndian::read_u32(rest)
}

/// The number in the 8 bytes at the file offset `at` (`Elf64_Xword`).
#[tactic(auto, unfolding(crate::specs::Numbers::xword_at))]
pub fn xword_at(bytes: &[u8], at: usize) -> u64
    requires { at + 8 ≤ length bytes.now }
    ensures { result ≡ read.xword_at bytes.now at }
{
    let (_, rest) = bytes.split_at(at);
    LittleEndian::read_u64(rest)
}

/// The signed number in the 8 bytes at the file offset `at` (`Elf64_Sxword`).
#[tactic(auto, unfolding(crate::specs::Numbers::sxword_at))]
pub fn sxword_at(bytes: &[u8], at: usize) -> i64
    requires { at + 8 ≤ length bytes.now }
    ensures { result ≡ read.sxword_at bytes.now at }
{
    let (_, rest) = bytes.split_at(at);
    LittleEndian::read_u64(rest).cast_signed()
}
