//! Numbers as the map shows them.

ghost use Rattle.std.specs.Prelude.{◌≡◌, ◌%◌, ◌++◌, codes, OnOk};
ghost use Rattle.map_file.specs.MapText as spec;

use std::alloc::AllocError;

/// The last hexadecimal digit of a number, in lower case.
fn low_digit(number: u64) -> u8
    ensures { result ≡ spec.low_digit (number % 16) }
{
    b"0123456789abcdef"[(number % 16) as usize]
}

/// Adds a space and the 16 hexadecimal digits of an address, or of a number of bytes.
#[tactic(auto, unfolding(crate::specs::MapText::hex))]
pub fn push_hex(text: &mut Vec<u8>, number: u64) -> Result<(), AllocError>
    ensures { OnOk result (text.new.items ≡ text.old.items ++ codes " " ++ spec.hex number) }
{
    text.extend_from_slice(&[
        b' ',
        low_digit(number / 0x1000_0000_0000_0000),
        low_digit(number / 0x100_0000_0000_0000),
        low_digit(number / 0x10_0000_0000_0000),
        low_digit(number / 0x1_0000_0000_0000),
        low_digit(number / 0x1000_0000_0000),
        low_digit(number / 0x100_0000_0000),
        low_digit(number / 0x10_0000_0000),
        low_digit(number / 0x1_0000_0000),
        low_digit(number / 0x1000_0000),
        low_digit(number / 0x100_0000),
        low_digit(number / 0x10_0000),
        low_digit(number / 0x1_0000),
        low_digit(number / 0x1000),
        low_digit(number / 0x100),
        low_digit(number / 0x10),
        low_digit(number),
    ])?;
    Ok(())
}
