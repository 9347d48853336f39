//! Numbers modulo 2^64, and multiples of an alignment.

ghost use Rattle.std.specs.Prelude.{◌≡◌, ◌+◌, ◌%◌, ◌^◌, ◌<◌, ◌≤◌};
ghost use Rattle.lk_base.specs.Arithmetic.{bits_of, up};

/// The value modulo 2^64.
#[tactic(auto, unfolding(crate::specs::Arithmetic::bits_of))]
pub fn low_bits(v: i128) -> u64
    ensures { result ≡ bits_of v }
{
    v.rem_euclid(1 << 64) as u64
}

/// The least multiple of an alignment that is not below `x`.
#[tactic(auto, unfolding(crate::specs::Arithmetic::up))]
pub fn up(x: u64, align: u64) -> u64
    requires some { 1 ≤ align }
    requires room { x + align < 2 ^ 64 }
    ensures value { result ≡ up x align }
    ensures least { x ≤ result }
    ensures bound { result < x + align }
    ensures multiple { result % align ≡ 0 }
{
    (x + (align - 1)) / align * align
}
