//! Decimal digits.

ghost use Rattle.std.specs.Prelude.{◌≡◌, ◌++◌, decimal, OnOk};

use std::alloc::AllocError;

/// Adds a number's decimal digits. The only error is out of memory.
pub fn push_decimal(text: &mut Vec<u8>, number: u32) -> Result<(), AllocError>
    ensures { OnOk result (text.new.items ≡ text.old.items ++ decimal number) }
{
    if number < 10 {
        text.push(b'0' + number as u8)?;
        return Ok(());
    }
    push_decimal(text, number / 10)?;
    text.push(b'0' + (number % 10) as u8)?;
    Ok(())
}
