//! What relocations put into their places, in a link whose executable was worked out by hand.

use super::links::{PLAIN, inputs_of, run_passes};
use super::shortened::SHORTENED;
use std::test::Fail;

/// S + A - P of the call at 0x11000 and the jump at 0x11004 to 0x11020; G + A - P of the load's upper part at 0x11006 by the entry at 0x12000, also
/// its lower part's; S + A of three characters of the strings at 0x10120. R_RISCV_RELAX and R_RISCV_ALIGN have no value.
const VALUES: &[i128] = &[0x20, 0x1c, 0xffa, 0xffa, 0x10125, 0x10128, 0x10126];

#[test]
fn relocations_have_their_values(rt: HostRuntime) -> Result<(), Fail> {
    let inputs = inputs_of(rt.alloc(), SHORTENED.objects)?;
    let made = run_passes(&rt, rt.alloc(), &inputs, &PLAIN)?;
    assert!(rt; made.written.relocated.as_slice() == VALUES);
    Ok(())
}
