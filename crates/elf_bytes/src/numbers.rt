//! Little-endian numbers.

use std::alloc::AllocError;

/// Adds numbers, each with its width in bytes.
pub fn push_numbers(out: &mut Vec<u8>, numbers: &[(u64, usize)]) -> Result<(), AllocError> {
    for (number, width) in numbers {
        for byte in number.to_le_bytes().iter().take(*width) {
            out.push(*byte)?;
        }
    }
    Ok(())
}

/// Fills up to a multiple of 8.
pub fn pad(out: &mut Vec<u8>) -> Result<(), AllocError> {
    let missing = (8 - out.len() % 8) % 8;
    push_zeros(out, missing)
}

/// Adds so many zeros.
pub fn push_zeros(out: &mut Vec<u8>, count: usize) -> Result<(), AllocError> {
    for _ in 0..count {
        out.push(0)?;
    }
    Ok(())
}
