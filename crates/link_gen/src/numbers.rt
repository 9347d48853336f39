//! Zero bytes, and how many digits a number has.

ghost use Rattle.std.specs.Prelude.{◌≡◌, ◌≤◌, ◌++◌, length, decimal, OnOk};
ghost use Rattle.link_gen.specs.Elf as spec;

use std::alloc::AllocError;

/// Adds zero bytes.
pub fn push_zeros(out: &mut Vec<u8>, count: u64) -> Result<(), AllocError>
    ensures { OnOk result (out.new.items ≡ out.old.items ++ spec.zeros count) }
{
    for _zero in 0..count {
        out.push(0)?;
    }
    Ok(())
}

/// How many decimal digits a number has.
pub fn digit_count(n: u32) -> u64
    ensures value { result ≡ length (decimal n) }
    ensures small { result ≤ 10 }
{
    if n < 10 {
        return 1;
    }
    digit_count(n / 10) + 1
}
